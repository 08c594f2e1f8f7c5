//! Examples of conflicts: two lists of symbols that the start rule derives. A parser that has read what comes before
//! the token could go on in one way for the one, and in another way for the other.

mod clashing;
mod finder;
mod nodes;
mod roads;
mod ways;

ghost use Rattle.std.specs.Prelude.{IfOk};
ghost use Rattle.lr_conflicts.specs.Clashes.{IsIn};
ghost use Rattle.lr_conflicts.specs.Examples.{AreOf, IsExampleIn};
ghost use Rattle.lr_conflicts.specs.Inner.Clashing.{IsKnown, ShowsClash};

use crate::examples::clashing::conflict_of;
use crate::examples::finder::Finder;
use crate::{Clash, Conflict, Conflicts};
use cfgrammar::Symbol;
use cfgrammar::yacc::YaccGrammar;
use lr_states::{States, used_productions};
use std::alloc::{AllocError, Global};

/// One of two ways to go on: what leads to the state, and what comes after that.
#[derive(Drop)]
pub struct Side {
    /// What leads to the state.
    pub prefix: Vec<Symbol<u32>>,
    /// What comes after that.
    pub rest: Vec<Symbol<u32>>,
}

/// Two lists that the start rule derives, and what could be done with them at a conflict's token. The token comes after
/// both prefixes, which lead to the conflict's state. Where it could be shifted, they are the same.
#[derive(Drop)]
pub struct Example {
    /// The list in which the clash's production is reduced.
    pub reduced: Side,
    /// The other one.
    pub other: Side,
}

/// An example of a clash, in the first of the grammar's conflicts that has it. Few steps lead to it: a step reads a
/// symbol or opens a rule. None if no conflict has it.
///
/// # Errors
///
/// Out of memory.
pub fn example_of(
    alloc: Global,
    grammar: &YaccGrammar<u32>,
    conflicts: &Conflicts,
    clash: Clash,
) -> Result<Option<Example>, AllocError>
    ensures { IfOk result (λ found. AreOf grammar.now conflicts.now
        → IsExampleIn grammar.now conflicts.now.lookaheads.automaton conflicts.now.conflicts clash found) }
{
    let states = conflicts.lookaheads().states();
    match conflict_of(grammar, states, conflicts.as_slice(), clash) {
        Some(conflict) => example_in(alloc, grammar, states, conflict, clash),
        None => Ok(None),
    }
}

/// An example of a clash that the conflict has.
fn example_in(
    alloc: Global,
    grammar: &YaccGrammar<u32>,
    states: &States,
    conflict: &Conflict,
    clash: Clash,
) -> Result<Option<Example>, AllocError>
    ensures { IfOk result (λ found. IsKnown grammar.now states.now conflict.now
        → IsIn grammar.now states.now conflict.now clash → ShowsClash grammar.now states.now conflict.now clash found) }
{
    grammar.invariant_holds();
    let firsts = grammar.firsts(alloc)?;
    let used = used_productions(alloc, grammar)?;
    let finder = Finder {
        alloc,
        grammar,
        firsts: &firsts,
        used: &used,
        states,
        conflict,
    };
    finder.example(clash)
}
