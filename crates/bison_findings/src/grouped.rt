//! One finding for clashes that are the same but for the token.

ghost use Rattle.std.specs.Prelude.{◌≡◌, ◌↔◌, ◌++◌, ◌≤◌, List, All, Contains, IfOk, IsTrue, OnOk};
ghost use Rattle.std.specs.Prelude.{drop, if◌then◌else◌, length, take};
ghost use Rattle.std.specs.List.{filter};
ghost use Rattle.lr_conflicts.specs.Examples.{AreOf};
ghost use Rattle.bison_findings.specs.Conflicts.{AreGrouped, BeginsOther, IsLike, most_examples};
ghost use Rattle.bison_findings.specs.Inner.Within.{IsAmong};
ghost use Rattle.lr_conflicts.specs.Clashes.{AreClashes};
ghost use Rattle.lr_conflicts.specs.declared.clashes.Clash.{Clash};

use crate::examples::note_on;
use crate::expectations::Listing;
use crate::texts::clash_finding;
use cfgrammar::yacc::YaccGrammar;
use lr_conflicts::{Clash, Conflicts};
use std::alloc::{AllocError, Global};
use text_findings::Finding;

/// How many findings have an example, since each takes a search.
const MOST_EXAMPLES: usize = 20;

/// Adds a finding for each two that clash in the conflicts and are listed, with all tokens at which they do. The first
/// ones have an example.
pub(crate) fn push_grouped(
    alloc: Global,
    all: &mut Vec<Finding>,
    grammar: &YaccGrammar<u32>,
    conflicts: &Conflicts,
    listing: Listing,
) -> Result<(), AllocError>
    requires { AreOf grammar.now conflicts.now }
    ensures { OnOk result ((clashes : List Clash)
        × AreClashes grammar.now conflicts.now.lookaheads.automaton conflicts.now.conflicts clashes
        × (grouped : _) × AreGrouped grammar.now conflicts.now.lookaheads.automaton conflicts.now.conflicts
        most_examples
        (filter (λ clash. if clash.shifts then listing.shift_reduce else listing.reduce_reduce) clashes) grouped
        × (all.new.items ≡ all.old.items ++ grouped)) }
{
    let clashes = conflicts.clashes(alloc, grammar)?;
    push_groups(
        alloc,
        all,
        grammar,
        conflicts,
        &listed(alloc, &clashes, listing)?,
    )
}

/// The clashes that are listed.
fn listed(alloc: Global, clashes: &[Clash], listing: Listing) -> Result<Vec<Clash>, AllocError>
    ensures { IfOk result (λ listed. listed.items
        ≡ filter (λ clash. if clash.shifts then listing.shift_reduce else listing.reduce_reduce) clashes.now) }
{
    clashes
        .iter()
        .copied()
        .filter(|clash| listing.has(*clash))
        .collect(alloc)
}

/// Adds a finding for each two that clash.
fn push_groups(
    alloc: Global,
    all: &mut Vec<Finding>,
    grammar: &YaccGrammar<u32>,
    conflicts: &Conflicts,
    clashes: &[Clash],
) -> Result<(), AllocError>
    requires tables { AreOf grammar.now conflicts.now }
    requires among { (clash : Clash) → Contains clashes.now clash → IsAmong grammar.now conflicts.now clash }
    ensures { OnOk result ((grouped : _) × AreGrouped grammar.now conflicts.now.lookaheads.automaton
        conflicts.now.conflicts most_examples clashes.now grouped × (all.new.items ≡ all.old.items ++ grouped)) }
{
    let mut rest = clashes;
    let mut left = MOST_EXAMPLES;
    while let Some((first, others)) = rest.split_first() {
        let (same, next) = others.split_at(count_like(*first, others));
        let note = note_on(alloc, grammar, conflicts, *first, left)?;
        all.push(clash_finding(alloc, grammar, *first, same)?.with_hint(note))?;
        left = left.saturating_sub(1);
        rest = next;
    }
    Ok(())
}

/// How many of the clashes, from the first on, are like this one.
fn count_like(first: Clash, clashes: &[Clash]) -> usize
    ensures within { result ≤ length clashes.now }
    ensures same { All (IsLike first) (take result clashes.now) }
    ensures other { BeginsOther first (drop result clashes.now) }
{
    for index in 0..clashes.len() {
        if !is_like(first, clashes[index]) {
            return index;
        }
    }
    clashes.len()
}

/// Whether the two are the same but for the token.
fn is_like(first: Clash, clash: Clash) -> bool
    ensures { IsTrue result ↔ IsLike first clash }
{
    first.shifts == clash.shifts
        && first.production == clash.production
        && first.other == clash.other
}
