//! Which conflicts have a clash.

ghost use Rattle.std.specs.Prelude.{◌≡◌, ◌↔◌, Contains, IsTrue, MatchOption};
ghost use Rattle.lr_conflicts.specs.Clashes.{IsIn};
ghost use Rattle.lr_conflicts.specs.declared.Conflict.{Conflict};
ghost use Rattle.lr_conflicts.specs.Inner.Clashing.{IsReductionIn, IsShiftIn};

use crate::clashes::items_of;
use crate::tables::{read_item, shifted_token};
use crate::{Clash, Conflict};
use cfgrammar::yacc::YaccGrammar;
use lr_states::States;

/// The first conflict that has the clash.
pub(crate) fn conflict_of<'a>(
    grammar: &YaccGrammar<u32>,
    states: &States,
    conflicts: &'a [Conflict],
    clash: Clash,
) -> Option<&'a Conflict>
    ensures { MatchOption result
        ((conflict : Conflict) → Contains conflicts.now conflict → IsIn grammar.now states.now conflict clash → ⊥)
        (λ conflict. Contains conflicts.now conflict.now × IsIn grammar.now states.now conflict.now clash) }
{
    for conflict in conflicts {
        if is_in(grammar, states, conflict, clash) {
            return Some(conflict);
        }
    }
    None
}

/// Whether the conflict has the clash.
fn is_in(grammar: &YaccGrammar<u32>, states: &States, conflict: &Conflict, clash: Clash) -> bool
    ensures { IsTrue result ↔ IsIn grammar.now states.now conflict.now clash }
{
    if clash.token != conflict.token {
        false
    } else if clash.shifts {
        is_shift_in(grammar, states, conflict, clash)
    } else {
        is_reduction_in(grammar, conflict, clash)
    }
}

/// Whether the token can be shifted in the conflict by the clash's other item, and the clash's production is one of the
/// conflict's.
fn is_shift_in(
    grammar: &YaccGrammar<u32>,
    states: &States,
    conflict: &Conflict,
    clash: Clash,
) -> bool
    ensures { IsTrue result ↔ IsShiftIn grammar.now states.now conflict.now clash }
{
    conflict.shifts
        && conflict.productions.contains(&clash.production)
        && items_of(states, conflict.state).contains(&clash.other)
        && shifted_token(grammar, clash.other) == Some(conflict.token)
}

/// Whether the clash's other item is that of the conflict's first production, and the clash's production is one of the
/// conflict's other ones.
fn is_reduction_in(grammar: &YaccGrammar<u32>, conflict: &Conflict, clash: Clash) -> bool
    ensures { IsTrue result ↔ IsReductionIn grammar.now conflict.now clash }
{
    match conflict.productions.split_first() {
        Some((first, rest)) => {
            clash.other == read_item(grammar, *first) && rest.contains(&clash.production)
        }
        None => false,
    }
}
