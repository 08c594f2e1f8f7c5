//! Which productions are used: those whose rules all have a sentence.

ghost use Rattle.std.specs.Prelude.{◌≡◌, ◌↔◌, ◌<◌, ℕ, Contains, IfOk, IsTrue, length, map, slice_index_or, false};
ghost use Rattle.cfgrammar.specs.Grammar.{Rule};
ghost use Rattle.cfgrammar.specs.Numbered.{core};
ghost use Rattle.cfgrammar.specs.NumberedSymbols.{sym_of};
ghost use Rattle.lr_states.specs.Inner.Closure.{IsOn};
ghost use Rattle.lr_states.specs.Viable.{IsUsed};

use crate::tables::symbols_of;
use cfgrammar::yacc::YaccGrammar;
use cfgrammar::{Symbol, Vob};
use std::alloc::{AllocError, Global};

/// A bit for each production, which says whether it is used: whether each rule in it has a sentence.
///
/// # Errors
///
/// Out of memory.
pub fn used_productions(alloc: Global, grammar: &YaccGrammar<u32>) -> Result<Vob, AllocError>
    ensures { IfOk result (λ bits. (p : ℕ) → IsTrue (slice_index_or bits p false) ↔ IsUsed (core grammar.now) p) }
{
    let productive = grammar.productive_rules(alloc)?;
    let count = usize::from(grammar.prods_len());
    let mut used = Vob::from_elem(alloc, false, count)?;
    for production in 0..count {
        used.set(
            production,
            have_sentences(&productive, symbols_of(grammar, production)),
        );
    }
    Ok(used)
}

/// Whether each rule among the symbols is productive.
fn have_sentences(productive: &Vob, symbols: &[Symbol<u32>]) -> bool
    ensures { IsTrue result
        ↔ ((r : ℕ) → Contains (map (sym_of (λ s. s)) symbols.now) (Rule r) → IsOn productive.now r) }
{
    for symbol in symbols {
        if let Symbol::Rule(rule) = symbol {
            if !productive.get(usize::from(*rule)).unwrap_or(false) {
                return false;
            }
        }
    }
    true
}
