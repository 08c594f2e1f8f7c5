//! Which symbols are nullable.

ghost use Rattle.std.specs.Prelude.{◌↔◌, ◌<◌, ◌∷◌, [], IfOk, IsTrue, length, map};
ghost use Rattle.cfgrammar.specs.Derivation.{Derives};
ghost use Rattle.cfgrammar.specs.Firsts.{AreFirsts};
ghost use Rattle.cfgrammar.specs.Grammar.{Grammar};
ghost use Rattle.cfgrammar.specs.Numbered.{core};
ghost use Rattle.cfgrammar.specs.NumberedSymbols.{sym_of};
ghost use Rattle.lr_states.specs.Viable.{IsUsed};
ghost use Rattle.lr_states.specs.Lookaheads.{HasUsed};
ghost use Rattle.lr_states.specs.Inner.Edges.{AreNullableFrom, IsNullableFrom};

use crate::tables::symbols_of;
use cfgrammar::Symbol;
use cfgrammar::yacc::YaccGrammar;
use cfgrammar::yacc::firsts::YaccFirsts;
use std::alloc::{AllocError, Global};

/// For each production the index from which on all of its symbols are nullable.
///
/// # Errors
///
/// Out of memory.
pub(crate) fn nullable_from(
    alloc: Global,
    grammar: &YaccGrammar<u32>,
    firsts: &YaccFirsts<u32>,
) -> Result<Vec<usize>, AllocError>
    requires { AreFirsts (core grammar.now) firsts.now }
    ensures { IfOk result (λ from. AreNullableFrom (core grammar.now) from.items) }
{
    let mut from = Vec::new(alloc);
    for production in 0..usize::from(grammar.prods_len()) {
        from.push(nullable_suffix(firsts, symbols_of(grammar, production)))?;
    }
    Ok(from)
}

/// The index from which on all symbols are nullable.
fn nullable_suffix(firsts: &YaccFirsts<u32>, symbols: &[Symbol<u32>]) -> usize
    ensures { (g : Grammar) → AreFirsts g firsts.now → IsNullableFrom g (map (sym_of (λ s. s)) symbols.now) result }
{
    let mut from = 0;
    for (index, symbol) in symbols.iter().enumerate() {
        if !is_nullable(firsts, *symbol) {
            from = index + 1;
        }
    }
    from
}

/// Whether the symbol is a nullable rule.
pub(crate) fn is_nullable(firsts: &YaccFirsts<u32>, symbol: Symbol<u32>) -> bool
    ensures { (g : Grammar) → AreFirsts g firsts.now
        → IsTrue result ↔ Derives (HasUsed g (IsUsed g)) (sym_of (λ s. s) symbol ∷ []) [] }
{
    match symbol {
        Symbol::Rule(rule) => firsts.is_epsilon_set(rule),
        Symbol::Token(_) => false,
    }
}
