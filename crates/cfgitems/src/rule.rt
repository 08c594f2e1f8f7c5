ghost use Rattle.std.specs.Prelude.{◌≡◌, ℕ, List, map, string_bytes, OnErr, OnOk};
ghost use Rattle.std.specs.Str.{bytes_eq};
ghost use Rattle.indexmap.specs.IndexMap.{index_of_by};
ghost use Rattle.cfgitems.specs.Syntax.{index_of};
ghost use Rattle.cfgitems.specs.Building.{listed};
ghost use Rattle.cfgitems.specs.SyntaxView.{rule_entry};

use cfgbase::Span;
use indexmap::IndexMap;
use std::alloc::AllocError;

/// A rule of a grammar.
#[derive(Debug, PartialEq, Eq, Drop)]
pub struct Rule {
    /// The name, and its first span.
    pub name: (String, Span),
    /// The rule's productions, by their indices among the productions of all rules.
    pub pidxs: Vec<usize>,
    /// The type that the rule's actions return.
    pub actiont: Option<String>,
}

impl Clone for Rule {
    ghost use Rattle.cfgitems.specs.SyntaxView.{rule_view};

    ghost is_clone = { λ rule copy. rule_view copy ≡ rule_view rule };

    fn clone(&self) -> Result<Rule, AllocError> {
        Ok(Rule {
            name: self.name.clone()?,
            pidxs: self.pidxs.clone()?,
            actiont: self.actiont.clone()?,
        })
    }
}

/// Lists the production of this index with the rule of this name.
pub fn list_production(
    rules: &mut IndexMap<String, Rule>,
    name: &str,
    index: usize,
) -> Result<(), AllocError>
    ensures listed { OnOk result (map rule_entry rules.new.entries
        ≡ map (listed name.now index) (map rule_entry rules.old.entries)) }
    ensures unchanged { OnErr result (map rule_entry rules.new.entries ≡ map rule_entry rules.old.entries) }
{
    if let Some(rule) = rules.get_mut(name) {
        rule.pidxs.push(index)?;
    }
    Ok(())
}

/// Lists the production of this index with the rule at the index `at`.
pub(crate) fn list_production_at(
    rules: &mut IndexMap<String, Rule>,
    at: usize,
    index: usize,
) -> Result<(), AllocError>
    ensures { (name : List ℕ) → at ≡ index_of name (map (λ rule. rule.0) (map rule_entry rules.old.entries))
        → OnOk result (map rule_entry rules.new.entries ≡ map (listed name index) (map rule_entry rules.old.entries)) }
{
    if let Some(owner) = rules.get_index_mut(at) {
        owner.pidxs.push(index)?;
    }
    Ok(())
}

/// The index of the rule of this name. The last rule is looked at first, since a rule's productions follow each other.
pub(crate) fn rule_index(rules: &IndexMap<String, Rule>, name: &str) -> Option<usize>
    ensures { result ≡ index_of_by (λ key. bytes_eq name.now (string_bytes key)) rules.now }
{
    match rules.last() {
        Some((key, _)) if key.as_str() == name => Some(rules.len() - 1),
        _ => rules.get_index_of(name),
    }
}
