//! What clashes in conflicts.

ghost use Rattle.std.specs.Prelude.{◌≡◌, IfOk, OnOk, map};
ghost use Rattle.lr_conflicts.specs.Clashes.{AreClashes};
ghost use Rattle.lr_conflicts.specs.Conflicts.{items_of};
ghost use Rattle.lr_conflicts.specs.Inner.Pushed.{AddsClashes, IsAgainst, IsReductionIn, IsShiftIn, clash_of};

use crate::Conflict;
use crate::tables::{read_item, shifted_token};
use cfgrammar::yacc::YaccGrammar;
use lr_states::{Item, States};
use std::alloc::{AllocError, Global};

/// A production that could be reduced at a token where something else could be done too.
#[derive(Clone, Copy)]
pub struct Clash {
    /// Whether that is to shift the token. Otherwise it is to reduce an earlier production, the first of those that
    /// could be.
    pub shifts: bool,
    /// The production.
    pub production: usize,
    /// The item by which the token could be shifted, or the earlier production, all of it read.
    pub other: Item,
    /// The number of the token.
    pub token: usize,
}

/// A clash, by what comes first in its order.
#[derive(Clone, Copy, PartialEq, Eq, PartialOrd, Ord)]
pub(crate) struct Entry {
    reduces: bool,
    production: usize,
    other: usize,
    read: usize,
    token: usize,
}

impl Entry {
    fn clash(self) -> Clash
        ensures { result ≡ clash_of self }
    {
        Clash {
            shifts: !self.reduces,
            production: self.production,
            other: Item {
                production: self.other,
                read: self.read,
            },
            token: self.token,
        }
    }
}

/// What clashes in the conflicts of a grammar with these states, each once and in order.
///
/// # Errors
///
/// Out of memory.
pub(crate) fn clashes(
    alloc: Global,
    grammar: &YaccGrammar<u32>,
    states: &States,
    conflicts: &[Conflict],
) -> Result<Vec<Clash>, AllocError>
    ensures { IfOk result (λ list. AreClashes grammar.now states.now conflicts.now list.items) }
{
    let mut entries = Vec::new(alloc);
    for conflict in conflicts {
        push_shifts(grammar, states, conflict, &mut entries)?;
        push_reductions(grammar, conflict, &mut entries)?;
    }
    entries.sort_unstable();
    entries.dedup();
    clashes_of(alloc, &entries)
}

fn clashes_of(alloc: Global, entries: &[Entry]) -> Result<Vec<Clash>, AllocError>
    ensures { IfOk result (λ list. list.items ≡ map clash_of entries.now) }
{
    entries.iter().map(|entry| entry.clash()).collect(alloc)
}

/// Pushes the productions of the conflict against the items by which its token could be shifted, if it is.
fn push_shifts(
    grammar: &YaccGrammar<u32>,
    states: &States,
    conflict: &Conflict,
    entries: &mut Vec<Entry>,
) -> Result<(), AllocError>
    ensures { OnOk result (AddsClashes (IsShiftIn grammar.now states.now conflict.now)
        entries.old.items entries.new.items) }
{
    if !conflict.shifts {
        return Ok(());
    }
    for item in items_of(states, conflict.state) {
        if shifted_token(grammar, *item) == Some(conflict.token) {
            push_against(true, *item, &conflict.productions, conflict.token, entries)?;
        }
    }
    Ok(())
}

/// Pushes the productions of the conflict but the first, against that one.
fn push_reductions(
    grammar: &YaccGrammar<u32>,
    conflict: &Conflict,
    entries: &mut Vec<Entry>,
) -> Result<(), AllocError>
    ensures { OnOk result (AddsClashes (IsReductionIn grammar.now conflict.now)
        entries.old.items entries.new.items) }
{
    match conflict.productions.split_first() {
        Some((first, rest)) => {
            let other = read_item(grammar, *first);
            push_against(false, other, rest, conflict.token, entries)
        }
        None => Ok(()),
    }
}

/// Pushes these productions against an item: of one that is read, or by which the token can be shifted.
fn push_against(
    shifts: bool,
    other: Item,
    productions: &[usize],
    token: usize,
    entries: &mut Vec<Entry>,
) -> Result<(), AllocError>
    ensures { OnOk result (AddsClashes (IsAgainst shifts other productions.now token)
        entries.old.items entries.new.items) }
{
    for production in productions {
        entries.push(Entry {
            reduces: !shifts,
            production: *production,
            other: other.production,
            read: other.read,
            token,
        })?;
    }
    Ok(())
}

/// The items of a state. A state that isn't there has none.
pub(crate) fn items_of(states: &States, number: usize) -> &[Item]
    ensures { result.now ≡ items_of states.now number }
{
    if number < states.len() {
        states.items(number)
    } else {
        &[]
    }
}
