//! What the tables of a grammar say of a production or rule with a number, and of an item.

ghost use Rattle.std.specs.Prelude.{◌≡◌, ◌<◌, All, IfSome, length, map, option_map, slice_get};
ghost use Rattle.cfgrammar.specs.Accessors.{IsSymbolWithin};
ghost use Rattle.cfgrammar.specs.Numbered.{core};
ghost use Rattle.cfgrammar.specs.NumberedSymbols.{sym_of};
ghost use Rattle.cfgrammar.specs.Openings.{ArePositionsOf, nth_production};

use crate::Item;
use cfgrammar::storage::to_storage;
use cfgrammar::yacc::YaccGrammar;
use cfgrammar::{PIdx, RIdx, Symbol};

/// The symbols of a production.
pub fn symbols_of(grammar: &YaccGrammar<u32>, production: usize) -> &[Symbol<u32>]
    requires { production < length grammar.now.productions }
    ensures symbols { map (sym_of (λ s. s)) result.now ≡ (nth_production (core grammar.now) production).symbols }
    ensures within { All (IsSymbolWithin (λ s. s) grammar.now) result.now }
{
    grammar.invariant_holds();
    grammar.prod(PIdx(to_storage(production)))
}

/// The rule of a production.
pub fn rule_of(grammar: &YaccGrammar<u32>, production: usize) -> usize
    requires { production < length grammar.now.productions }
    ensures { result ≡ (nth_production (core grammar.now) production).rule }
{
    grammar.invariant_holds();
    usize::from(grammar.prod_to_rule(PIdx(to_storage(production))))
}

/// The productions of a rule.
pub fn productions_of(grammar: &YaccGrammar<u32>, rule: usize) -> &[PIdx<u32>]
    requires { rule < length grammar.now.rules }
    ensures { ArePositionsOf (core grammar.now) rule (map (λ p. p.0) result.now) }
{
    grammar.invariant_holds();
    grammar.rule_to_prods(RIdx(to_storage(rule)))
}

/// The symbol that comes after those that are read.
pub fn next_symbol(grammar: &YaccGrammar<u32>, item: Item) -> Option<Symbol<u32>>
    requires { item.production < length grammar.now.productions }
    ensures is { option_map (sym_of (λ s. s)) result
        ≡ slice_get (nth_production (core grammar.now) item.production).symbols item.read }
    ensures within { IfSome result (IsSymbolWithin (λ s. s) grammar.now) }
{
    symbols_of(grammar, item.production).get(item.read).copied()
}
