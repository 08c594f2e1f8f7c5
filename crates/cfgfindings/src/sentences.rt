//! Which rules are unproductive, and productions that no sentence uses.

ghost use Rattle.std.specs.Prelude.{◌≡◌, ◌↔◌, ◌++◌, ◌<◌, ℕ, false, true, IsTrue, List, All, Contains, length, map};
ghost use Rattle.std.specs.Prelude.{IfOk, IfSome, MatchOption, OnOk};
ghost use Rattle.cfgrammar.specs.Grammar.{Rule};
ghost use Rattle.cfgrammar.specs.Accessors.{IsSymbolWithin};
ghost use Rattle.cfgrammar.specs.NumberedSymbols.{sym_of};
ghost use Rattle.cfgfindings.specs.Findings.{IsFirstUnproductive, ReportsBelow, ReportsUnusable};
ghost use Rattle.cfgfindings.specs.Inner.Reached.{IsFollowedAt};
ghost use Rattle.cfgfindings.specs.Inner.Unproductive.{UnproductiveOrNot};
ghost use Rattle.cfgfindings.specs.Shown.{ShownFinding};

use cfgrammar::laws::usable_productions_hold_sentences;
use cfgrammar::storage::to_storage;
use cfgrammar::yacc::YaccGrammar;
use cfgrammar::{PIdx, RIdx, Symbol, Vob};
use std::alloc::{AllocError, Global};
use std::marker::Model;
use text_findings::{Finding, FindingKind, Reporter, push_reported};

/// Adds the productions of the file that can't be used to the findings.
pub(crate) fn push_unusable(
    alloc: Global,
    all: &mut Vec<Finding>,
    unproductive: &Unproductive<'_>,
) -> Result<(), AllocError>
    ensures { OnOk result ((unusable : List ShownFinding)
        × ReportsBelow (ReportsUnusable unproductive.now) unproductive.now.start_production unusable
        × (all.new.items ≡ all.old.items ++ unusable)) }
{
    let count = usize::from(unproductive.grammar().start_prod());
    push_reported(alloc, all, &Productions(unproductive), count)
}

/// The unproductive rules of a grammar.
#[derive(Drop)]
pub(crate) struct Unproductive<'a> {
    grammar: &'a YaccGrammar<u32>,
    productive: Vob,
}

impl<'a> Model for Unproductive<'a> {
    ghost use Rattle.cfgrammar.specs.Numbered.{Numbered, core};
    ghost use Rattle.cfgrammar.specs.ProductiveRules.{AreProductiveRules};

    ghost Value = { Numbered };

    ghost view = { λ x. x.grammar.now };

    ghost invariant = { λ x. AreProductiveRules (core x.grammar.now) x.productive };
}

impl<'a> Unproductive<'a> {
    /// Finds out which rules of the grammar are unproductive.
    pub(crate) fn new(alloc: Global, grammar: &'a YaccGrammar<u32>) -> Result<Self, AllocError>
        ensures { IfOk result (λ x. x ≡ grammar.now) }
    {
        let productive = grammar.productive_rules(alloc)?;
        Ok(Unproductive {
            grammar,
            productive,
        })
    }

    /// The grammar.
    pub(crate) fn grammar(&self) -> &'a YaccGrammar<u32>
        ensures { result.now ≡ self.now }
    {
        self.grammar
    }

    /// Whether the rule is unproductive.
    pub(crate) fn contains(&self, rule: RIdx<u32>) -> bool
        ensures { UnproductiveOrNot self.now rule.0 result }
    {
        !self.productive.get(usize::from(rule)).unwrap_or(false)
    }

    /// Whether all rules are productive.
    pub(crate) fn is_empty(&self) -> bool
        ensures { IsTrue result → (r : ℕ) → r < length self.now.rules → UnproductiveOrNot self.now r false }
    {
        for rule in self.grammar.iter_rules() {
            if self.contains(rule) {
                return false;
            }
        }
        true
    }

    /// Whether a sentence of its rule uses the production: if no rule in it is unproductive.
    pub(crate) fn is_usable(&self, production: PIdx<u32>) -> bool
        requires { production.0 < length self.now.productions }
        ensures { IsTrue result ↔ IsFollowedAt self.now true production.0 }
    {
        usable_productions_hold_sentences();
        match self.first_among(self.grammar.prod(production)) {
            Some(_) => false,
            None => true,
        }
    }

    /// The first unproductive rule among the symbols.
    fn first_among(&self, symbols: &[Symbol<u32>]) -> Option<RIdx<u32>>
        requires { All (IsSymbolWithin (λ s. s) self.now) symbols.now }
        ensures first { MatchOption result
            ((q : ℕ) → Contains (map (sym_of (λ s. s)) symbols.now) (Rule q) → UnproductiveOrNot self.now q false)
            (λ q. IsFirstUnproductive self.now (map (sym_of (λ s. s)) symbols.now) q.0) }
        ensures within { IfSome result (λ q. q.0 < length self.now.rules) }
    {
        for symbol in symbols {
            if let Symbol::Rule(rule) = symbol {
                if self.contains(*rule) {
                    return Some(*rule);
                }
            }
        }
        None
    }
}

/// Reports the productions of the file that can't be used although their rules are productive.
#[derive(Drop)]
struct Productions<'a>(&'a Unproductive<'a>);

impl<'a> Reporter for Productions<'a> {
    ghost use Rattle.cfgfindings.specs.Findings.{ReportsUnusable};

    ghost count = { λ x. x.0.now.start_production };

    ghost reports = { λ x. ReportsUnusable x.0.now };

    fn report(&self, alloc: Global, number: usize) -> Result<Option<Finding>, AllocError> {
        let unproductive = self.0;
        let grammar = unproductive.grammar();
        usable_productions_hold_sentences();
        let _start = grammar.start_prod();
        let production = PIdx(to_storage(number));
        if unproductive.contains(grammar.prod_to_rule(production)) {
            return Ok(None);
        }
        let Some(rule) = unproductive.first_among(grammar.prod(production)) else {
            return Ok(None);
        };
        let name = grammar.rule_name_str(rule);
        let text = format!(in alloc; "Unusable production: rule '{name}' has no sentence")?;
        let span = grammar.prod_span(production);
        Ok(Some(Finding::at(alloc, FindingKind::UnusableProduction, span, text)?))
    }
}
