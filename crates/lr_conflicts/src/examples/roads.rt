//! What prefixes ways may have.

ghost use Rattle.std.specs.Prelude.{◌≡◌};
ghost use Rattle.cfgrammar.specs.NumberedSymbols.{sym_of};
ghost use Rattle.lr_conflicts.specs.Inner.Tables.{step_of};

use cfgrammar::Symbol;
use lr_states::States;

/// What prefixes ways may have.
#[derive(Clone, Copy)]
pub(crate) enum Road<'a> {
    /// All viable ones. A place is a state.
    States(&'a States),
    /// Those that this one begins with. A place is how much of it is read.
    Prefix(&'a [Symbol<u32>]),
}

impl<'a> Road<'a> {
    /// The place after one symbol more.
    pub(crate) fn step(&self, place: usize, symbol: Symbol<u32>) -> Option<usize>
        ensures { result ≡ step_of self.now place (sym_of (λ s. s) symbol) }
    {
        match self {
            Road::States(states) => {
                if place < states.len() {
                    states.goto(place, symbol)
                } else {
                    None
                }
            }
            Road::Prefix(symbols) => {
                if symbols.get(place).copied() == Some(symbol) {
                    Some(place + 1)
                } else {
                    None
                }
            }
        }
    }
}
