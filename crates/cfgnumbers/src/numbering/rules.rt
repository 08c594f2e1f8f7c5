//! The rows of rules.

ghost use Rattle.std.specs.Prelude.{◌≡◌, ◌+◌, ◌≤◌, ◌∷◌, ◌++◌, [], false, All, length, map};
ghost use Rattle.std.specs.Prelude.{IfOk, OnOk};
ghost use Rattle.std.specs.List.{list_any, range_with_len};
ghost use Rattle.std.specs.Str.{bytes_eq};
ghost use Rattle.cfgitems.specs.SyntaxView.{rule_view as plain_rule};
ghost use Rattle.cfgnumbers.specs.Fits.{LeavesRoom};
ghost use Rattle.cfgnumbers.specs.Numberable.{IsNumberable};
ghost use Rattle.cfgnumbers.specs.Numbered.{added_rule, added_rules, file_rule};
ghost use Rattle.cfgnumbers.specs.TablesView.{names, file_of, implicit_in, rule_view};

use super::Numbering;
use crate::rows::RuleRow;
use cfgbase::Span;
use cfgindex::{PIdx, Storage, to_storage};
use cfgitems::Rule;
use indexmap::IndexMap;
use std::alloc::{AllocError, Global};

// The names of the added rules, which a file can't use.
const START_RULE: &str = "^";

const IMPLICIT_RULE: &str = "~";

const IMPLICIT_START_RULE: &str = "^~";

impl Numbering<'_> {
    /// The rules: the added ones, and then the file's.
    ///
    /// # Errors
    ///
    /// Out of memory.
    pub fn rule_rows<S: Storage>(
        &self,
        alloc: Global,
    ) -> Result<IndexMap<String, RuleRow<S>>, AllocError>
        requires numberable { IsNumberable (file_of self.now) }
        requires room { LeavesRoom S.MAX (implicit_in self.now) (file_of self.now) }
        ensures { IfOk result (λ rows. map (rule_view S.number) rows.entries
            ≡ added_rules (implicit_in self.now) (length (file_of self.now).productions)
            ++ map file_rule (file_of self.now).rules) }
    {
        let count = self.ast.rules().len().saturating_add(self.rules_before());
        let mut rows = IndexMap::with_capacity(alloc, count)?;
        self.put_added_rules(alloc, &mut rows)?;
        self.put_rules(alloc, &mut rows)?;
        Ok(rows)
    }

    /// Adds the rules that the file doesn't have to the rows. Their productions come after those of the file.
    fn put_added_rules<S: Storage>(
        &self,
        alloc: Global,
        rows: &mut IndexMap<String, RuleRow<S>>,
    ) -> Result<(), AllocError>
        requires empty { rows.old.entries ≡ [] }
        requires room { LeavesRoom S.MAX (implicit_in self.now) (file_of self.now) }
        ensures { OnOk result (map (rule_view S.number) rows.new.entries
            ≡ added_rules (implicit_in self.now) (length (file_of self.now).productions)) }
    {
        let first = self.ast.prods().len();
        put_added_rule(alloc, rows, START_RULE, first, 1)?;
        if let Some(tokens) = self.implicit {
            let count = tokens.len();
            put_added_rule(alloc, rows, IMPLICIT_RULE, first + 1, count + 1)?;
            put_added_rule(alloc, rows, IMPLICIT_START_RULE, first + count + 2, 1)?;
        }
        Ok(())
    }

    /// Adds the rules of the file to the rows, after the added ones.
    fn put_rules<S: Storage>(
        &self,
        alloc: Global,
        rows: &mut IndexMap<String, RuleRow<S>>,
    ) -> Result<(), AllocError>
        requires numberable { IsNumberable (file_of self.now) }
        requires room { LeavesRoom S.MAX (implicit_in self.now) (file_of self.now) }
        requires added { map (rule_view S.number) rows.old.entries
            ≡ added_rules (implicit_in self.now) (length (file_of self.now).productions) }
        ensures { OnOk result (map (rule_view S.number) rows.new.entries
            ≡ added_rules (implicit_in self.now) (length (file_of self.now).productions)
            ++ map file_rule (file_of self.now).rules) }
    {
        for (name, rule) in self.ast.rules() {
            put_rule(alloc, rows, name.as_str(), rule)?;
        }
        Ok(())
    }
}

/// Adds a rule that the file doesn't have to the rows. It has this many productions, from `first` on.
fn put_added_rule<S: Storage>(
    alloc: Global,
    rows: &mut IndexMap<String, RuleRow<S>>,
    name: &str,
    first: usize,
    count: usize,
) -> Result<(), AllocError>
    requires new { list_any (bytes_eq name.now) (names rows.old.entries) ≡ false }
    requires positions { first + count ≤ S.MAX }
    ensures { OnOk result (map (rule_view S.number) rows.new.entries
        ≡ map (rule_view S.number) rows.old.entries ++ added_rule name.now (range_with_len first count) ∷ []) }
{
    let name = String::from_str(alloc, name)?;
    let row = RuleRow {
        span: Span::new(0, 0),
        prods: positions_in_order(alloc, first, count)?,
        actiont: None,
    };
    rows.insert(name, row)?;
    Ok(())
}

/// This many productions in order, from `first` on.
fn positions_in_order<S: Storage>(
    alloc: Global,
    first: usize,
    count: usize,
) -> Result<Vec<PIdx<S>>, AllocError>
    requires { first + count ≤ S.MAX }
    ensures { IfOk result (λ prods. map (λ p. S.number p.0) prods.items ≡ range_with_len first count) }
{
    let mut prods = Vec::with_capacity(alloc, count)?;
    for index in 0..count {
        prove!(first <= S::MAX);
        prods.push(PIdx(to_storage(first + index)))?;
    }
    Ok(prods)
}

/// Adds a rule of the file to the rows.
fn put_rule<S: Storage>(
    alloc: Global,
    rows: &mut IndexMap<String, RuleRow<S>>,
    name: &str,
    rule: &Rule,
) -> Result<(), AllocError>
    requires new { list_any (bytes_eq name.now) (names rows.old.entries) ≡ false }
    requires positions { All (λ index. index ≤ S.MAX) rule.now.pidxs.items }
    ensures { OnOk result (map (rule_view S.number) rows.new.entries
        ≡ map (rule_view S.number) rows.old.entries ++ file_rule (name.now, plain_rule rule.now) ∷ []) }
{
    let (_, span) = &rule.name;
    let name = String::from_str(alloc, name)?;
    let actiont = rule.actiont.clone()?;
    let row = RuleRow {
        span: *span,
        prods: stored_positions(alloc, &rule.pidxs)?,
        actiont,
    };
    rows.insert(name, row)?;
    Ok(())
}

/// The productions with these numbers, as indices.
fn stored_positions<S: Storage>(
    alloc: Global,
    positions: &[usize],
) -> Result<Vec<PIdx<S>>, AllocError>
    requires { All (λ index. index ≤ S.MAX) positions.now }
    ensures { IfOk result (λ prods. map (λ p. S.number p.0) prods.items ≡ positions.now) }
{
    let mut prods = Vec::with_capacity(alloc, positions.len())?;
    for index in positions {
        prods.push(PIdx(to_storage(*index)))?;
    }
    Ok(prods)
}
