//! Productive rules: those that have a sentence.

ghost use Rattle.std.specs.Prelude.{◌≡◌, IfOk, MatchBool, length, map};
ghost use Rattle.cfgtables.specs.NumberedSymbols.{sym_of};
ghost use Rattle.cfgsets.specs.Growth.{CanNote, CanAddProduction, AddsProduction, shown};
ghost use Rattle.cfganalysis.specs.Inner.GrowingFirsts.{ProductionRefers};
ghost use Rattle.cfganalysis.specs.Inner.GrowingProductive.{AreSoundProductive, CoverProductiveOf};
ghost use Rattle.cfganalysis.specs.Inner.GrowingProductive.{IsNoMoreProductive, productive_bounded};
ghost use Rattle.cfgsets.specs.Waiting.{Waits};
ghost use Rattle.cfgsets.specs.Work.{Notes};
ghost use Rattle.cfganalysis.specs.ProductiveRules.{AreProductiveRules, AreProductiveSymbols, is_productive_symbol};
ghost use Rattle.cfgsets.specs.Table.{bits_on};

use crate::firsts::note_rules;
use crate::visits::visit_all;
use cfgindex::{RIdx, Storage, Symbol, Vob};
use cfgsets::{Analysis, Dependents, Waiting};
use cfgtables::{CountedTables, Productions, Tables};
use std::alloc::{AllocError, Global};
use std::marker::Model;

/// The productive rules of a grammar, as a bit for each rule.
///
/// # Errors
///
/// Out of memory.
pub fn productive_rules<S: Storage, T: Tables<S>>(
    alloc: Global,
    tables: &T,
) -> Result<Vob, AllocError>
    ensures { IfOk result (AreProductiveRules (T.grammar tables.now)) }
{
    let mut productions = CountedTables::new(alloc, tables)?;
    let rules = productions.rules_len().0.to_usize();
    let _tokens = productions.tokens_len().0.to_usize();
    let mut productive = GrowingProductive {
        bits: Vob::from_elem(alloc, false, rules)?,
    };
    visit_all(alloc, &mut productions, &mut productive)?;
    Ok(productive.bits)
}

/// The productive rules found so far.
#[derive(Drop)]
struct GrowingProductive {
    bits: Vob,
}

impl Model for GrowingProductive {
    ghost use Rattle.std.specs.Prelude.{List, Bool};

    ghost Value = { List Bool };

    ghost view = { λ x. x.bits };
}

/// Whether the symbol is a token or a productive rule.
fn is_productive<S: Storage>(productive: &Vob, symbol: Symbol<S>) -> bool
    ensures { result ≡ is_productive_symbol productive.now (sym_of S.number symbol) }
{
    match symbol {
        Symbol::Rule(rule) => productive.get(usize::from(rule)).unwrap_or(false),
        Symbol::Token(_) => true,
    }
}

/// Whether all symbols are tokens or productive rules. `productive` has a bit for each rule.
pub fn are_productive<S: Storage>(productive: &Vob, symbols: &[Symbol<S>]) -> bool
    ensures { MatchBool result (AreProductiveSymbols productive.now (map (sym_of S.number) symbols.now))
        (AreProductiveSymbols productive.now (map (sym_of S.number) symbols.now) → ⊥) }
{
    for symbol in symbols {
        if !is_productive(productive, *symbol) {
            return false;
        }
    }
    true
}

impl<S: Storage> Analysis<S> for GrowingProductive {
    ghost holds = { AreSoundProductive };

    ghost covers = { CoverProductiveOf };

    ghost bits = { bits_on };

    ghost depends_on = { ProductionRefers };

    ghost no_more = { IsNoMoreProductive };

    ghost bounded = { productive_bounded };

    fn note(
        &self,
        production: usize,
        _rule: RIdx<S>,
        symbols: &[Symbol<S>],
        dependents: &mut Dependents,
    ) -> Result<(), AllocError>
        requires { CanNote dependents.old (shown S.number _rule symbols.now) }
        ensures { IfOk result (λ _. Notes production (ProductionRefers (shown S.number _rule symbols.now))
            dependents.old dependents.new) }
    {
        note_rules(production, symbols, dependents)
    }

    fn visit(&mut self, rule: RIdx<S>, symbols: &[Symbol<S>], grown: &mut Waiting)
        requires { CanAddProduction AreSoundProductive self.old grown.old (shown S.number rule symbols.now) }
        ensures takes { AddsProduction AreSoundProductive CoverProductiveOf bits_on ProductionRefers IsNoMoreProductive
            (shown S.number rule symbols.now) self.old self.new (Waits grown.new) }
        ensures rules { length grown.new ≡ length grown.old }
    {
        if !are_productive(&self.bits, symbols) {
            return;
        }
        if self.bits.set(usize::from(rule), true) {
            grown.put(usize::from(rule));
        }
    }
}
