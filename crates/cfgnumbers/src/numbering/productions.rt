//! The rows of productions.

ghost use Rattle.std.specs.Prelude.{◌≡◌, ◌<◌, ◌≤◌, ◌∷◌, ◌++◌, [], true, All, Some, length};
ghost use Rattle.std.specs.Prelude.{map, option_map, string_bytes, IfOk, OnOk};
ghost use Rattle.std.specs.List.{zip};
ghost use Rattle.std.specs.Option.{option_to_list};
ghost use Rattle.derivation.specs.Grammar.{Rule, Token};
ghost use Rattle.cfgitems.specs.Building.{has_name};
ghost use Rattle.cfgitems.specs.SyntaxView.{production_view as plain_production};
ghost use Rattle.cfgnumbers.specs.Fits.{LeavesRoom};
ghost use Rattle.cfgnumbers.specs.Numberable.{IsNumberable};
ghost use Rattle.cfgnumbers.specs.Numbered.{added_production, added_productions, file_production, token_index};
ghost use Rattle.cfgnumbers.specs.Numbered.{file_token, precedence_of_token};
ghost use Rattle.cfgnumbers.specs.Resolved.{AreTokens, IsResolved, Resolves};
ghost use Rattle.cfgnumbers.specs.TablesView.{names, file_of, implicit_in, token_view};
ghost use Rattle.cfgtables.specs.NumberedSymbols.{sym_of};

use super::Numbering;
use super::marks::precedence_of;
use crate::production_rows::ProductionRows;
use crate::rows::{ProductionRow, TokenRow};
use cfgbase::Span;
use cfgindex::{RIdx, Storage, Symbol, to_storage};
use cfgitems::Production;
use indexmap::IndexMap;
use std::alloc::{AllocError, Global};

impl Numbering<'_> {
    /// The productions: those of the file, and then the added ones. The tokens have these rows.
    ///
    /// # Errors
    ///
    /// Out of memory.
    pub fn production_rows<S: Storage>(
        &self,
        alloc: Global,
        tokens: &IndexMap<String, TokenRow>,
    ) -> Result<ProductionRows<S>, AllocError>
        requires numberable { IsNumberable (file_of self.now) }
        requires tokens { map token_view tokens.now.entries
            ≡ map (file_token (file_of self.now)) (zip (file_of self.now).tokens (file_of self.now).spans) }
        requires implicit { AreTokens (file_of self.now) (implicit_in self.now) }
        requires room { LeavesRoom S.MAX (implicit_in self.now) (file_of self.now) }
        ensures { IfOk result (λ rows. rows
            ≡ map (file_production (implicit_in self.now) (file_of self.now))
            (zip (file_of self.now).production_rules (file_of self.now).productions)
            ++ added_productions (implicit_in self.now) (file_of self.now)) }
    {
        let of_file = self.ast.prods().len();
        let mut rows = ProductionRows::with_capacity(alloc, of_file.saturating_add(1))?;
        self.push_file_rows(alloc, &mut rows, tokens)?;
        self.push_added(alloc, &mut rows)?;
        Ok(rows)
    }

    /// Adds the productions of the file to the rows.
    fn push_file_rows<S: Storage>(
        &self,
        alloc: Global,
        rows: &mut ProductionRows<S>,
        tokens: &IndexMap<String, TokenRow>,
    ) -> Result<(), AllocError>
        requires empty { rows.old ≡ [] }
        requires tokens { map (λ token. token.1.precedence) tokens.now.entries
            ≡ map (precedence_of_token (file_of self.now)) (file_of self.now).tokens }
        requires numberable { IsNumberable (file_of self.now) }
        requires room { LeavesRoom S.MAX (implicit_in self.now) (file_of self.now) }
        ensures { OnOk result (rows.new
            ≡ map (file_production (implicit_in self.now) (file_of self.now))
            (zip (file_of self.now).production_rules (file_of self.now).productions)) }
    {
        let mut symbols = Vec::new(alloc);
        for (rule, production) in self.ast.prods_rules().iter().zip(self.ast.prods()) {
            self.push_file_row(rows, &mut symbols, tokens, *rule, production)?;
        }
        Ok(())
    }

    /// Adds a production of the file to the rows; its rule has this index. Its symbols are numbered in `symbols`. The
    /// tokens have these rows.
    fn push_file_row<S: Storage>(
        &self,
        rows: &mut ProductionRows<S>,
        symbols: &mut Vec<Symbol<S>>,
        tokens: &IndexMap<String, TokenRow>,
        rule: usize,
        production: &Production,
    ) -> Result<(), AllocError>
        requires tokens { map (λ token. token.1.precedence) tokens.now.entries
            ≡ map (precedence_of_token (file_of self.now)) (file_of self.now).tokens }
        requires rule { rule < length (file_of self.now).rules }
        requires resolved { Resolves (file_of self.now) (plain_production production.now) }
        requires room { LeavesRoom S.MAX (implicit_in self.now) (file_of self.now) }
        ensures { OnOk result (rows.new ≡ rows.old
            ++ file_production (implicit_in self.now) (file_of self.now) (rule, plain_production production.now) ∷ []) }
    {
        let last = self.number_symbols(symbols, &production.symbols)?;
        let (action, action_span) = action_parts(production)?;
        let row = ProductionRow {
            span: production.prod_span,
            precedence: precedence_of(self.ast, tokens, production, last),
            action,
            action_span,
        };
        rows.push(self.rule_at(rule), symbols.as_slice(), row)
    }

    /// Adds the productions that the file doesn't have to the rows.
    fn push_added<S: Storage>(
        &self,
        alloc: Global,
        rows: &mut ProductionRows<S>,
    ) -> Result<(), AllocError>
        requires resolved { IsResolved (file_of self.now) }
        requires implicit { AreTokens (file_of self.now) (implicit_in self.now) }
        requires room { LeavesRoom S.MAX (implicit_in self.now) (file_of self.now) }
        ensures { OnOk result (rows.new
            ≡ rows.old ++ added_productions (implicit_in self.now) (file_of self.now)) }
    {
        match self.implicit {
            Some(tokens) => self.push_for_implicit(alloc, rows, tokens),
            None => push_added_row(alloc, rows, 0, None, Some(self.start_symbol())),
        }
    }

    /// Adds the productions for a file with implicit tokens to the rows.
    fn push_for_implicit<S: Storage>(
        &self,
        alloc: Global,
        rows: &mut ProductionRows<S>,
        tokens: &IndexMap<String, Span>,
    ) -> Result<(), AllocError>
        requires own { implicit_in self.now ≡ Some (names tokens.now.entries) }
        requires resolved { IsResolved (file_of self.now) }
        requires implicit { All (λ name. has_name name (file_of self.now).tokens ≡ true) (names tokens.now.entries) }
        requires room { LeavesRoom S.MAX (Some (names tokens.now.entries)) (file_of self.now) }
        ensures { OnOk result (rows.new
            ≡ rows.old ++ added_productions (Some (names tokens.now.entries)) (file_of self.now)) }
    {
        let implicit = Symbol::Rule(RIdx(to_storage(1)));
        let implicit_start = Symbol::Rule(RIdx(to_storage(2)));
        push_added_row(alloc, rows, 0, None, Some(implicit_start))?;
        self.push_implicit(alloc, rows, tokens)?;
        push_added_row(alloc, rows, 1, None, None)?;
        push_added_row(alloc, rows, 2, Some(implicit), Some(self.start_symbol()))
    }

    /// For each implicit token, adds a production of the rule for these to the rows: the token, and the rule again.
    fn push_implicit<S: Storage>(
        &self,
        alloc: Global,
        rows: &mut ProductionRows<S>,
        tokens: &IndexMap<String, Span>,
    ) -> Result<(), AllocError>
        requires implicit { All (λ name. has_name name (file_of self.now).tokens ≡ true) (names tokens.now.entries) }
        requires rule { 1 ≤ S.MAX }
        requires room { LeavesRoom S.MAX (implicit_in self.now) (file_of self.now) }
        ensures { OnOk result (rows.new
            ≡ rows.old ++ map (λ name. added_production 1 (Token (token_index (file_of self.now) name) ∷ Rule 1 ∷ []))
            (names tokens.now.entries)) }
    {
        for (name, _) in tokens {
            let token = Symbol::Token(self.token_of(name.as_str()));
            let again = Symbol::Rule(RIdx(to_storage(1)));
            push_added_row(alloc, rows, 1, Some(token), Some(again))?;
        }
        Ok(())
    }
}

/// Adds a production that the file doesn't have to the rows. It has these symbols, at most two.
fn push_added_row<S: Storage>(
    alloc: Global,
    rows: &mut ProductionRows<S>,
    rule: usize,
    first: Option<Symbol<S>>,
    second: Option<Symbol<S>>,
) -> Result<(), AllocError>
    requires { rule ≤ S.MAX }
    ensures { OnOk result (rows.new ≡ rows.old
        ++ added_production rule (map (sym_of S.number) (option_to_list first ++ option_to_list second)) ∷ []) }
{
    let symbols = in_order(alloc, first, second)?;
    let row = ProductionRow {
        span: Span::new(0, 0),
        precedence: None,
        action: None,
        action_span: None,
    };
    rows.push(RIdx(to_storage(rule)), &symbols, row)
}

/// The values of those that are `Some`.
fn in_order<T: Drop>(
    alloc: Global,
    first: Option<T>,
    second: Option<T>,
) -> Result<Vec<T>, AllocError>
    ensures { IfOk result (λ both. both.items ≡ option_to_list first ++ option_to_list second) }
{
    let mut both = Vec::new(alloc);
    if let Some(first) = first {
        both.push(first)?;
    }
    if let Some(second) = second {
        both.push(second)?;
    }
    Ok(both)
}

/// The text of a production's action, and its span.
fn action_parts(production: &Production) -> Result<(Option<String>, Option<Span>), AllocError>
    ensures text { IfOk result (λ parts. option_map string_bytes parts.0
        ≡ option_map (λ action. string_bytes action.0) production.now.action) }
    ensures span { IfOk result (λ parts. parts.1 ≡ option_map (λ action. action.1) production.now.action) }
{
    match &production.action {
        Some((text, span)) => Ok((Some(text.clone()?), Some(*span))),
        None => Ok((None, None)),
    }
}
