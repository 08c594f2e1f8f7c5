//! Examples as the notes of findings.

ghost use Rattle.std.specs.Prelude.{◌≡◌, All, IfOk, map, option_map, string_bytes};
ghost use Rattle.cfgrammar.specs.Accessors.{IsSymbolWithin};
ghost use Rattle.lr_conflicts.specs.Examples.{AreOf};
ghost use Rattle.bison_findings.specs.Conflicts.{IsNote};
ghost use Rattle.bison_findings.specs.Inner.Within.{AreSymbolsWithin, IsAmong};
ghost use Rattle.bison_findings.specs.Shown.{example_text, side_text};

use crate::symbols::write_dotted;
use cfgrammar::yacc::YaccGrammar;
use lr_conflicts::examples::{Example, Side, example_of};
use lr_conflicts::{Clash, Conflicts};
use std::alloc::{AllocError, Global};

/// The note on a finding about this clash, if `left` findings may still have one: an example.
pub(crate) fn note_on(
    alloc: Global,
    grammar: &YaccGrammar<u32>,
    conflicts: &Conflicts,
    clash: Clash,
    left: usize,
) -> Result<Option<String>, AllocError>
    requires tables { AreOf grammar.now conflicts.now }
    requires clash { IsAmong grammar.now conflicts.now clash }
    ensures { IfOk result (λ note. IsNote grammar.now conflicts.now.lookaheads.automaton conflicts.now.conflicts
        left clash (option_map string_bytes note)) }
{
    if left == 0 {
        return Ok(None);
    }
    grammar.invariant_holds();
    match example_of(alloc, grammar, conflicts, clash)? {
        Some(example) => Ok(Some(example_text(alloc, grammar, &example)?)),
        None => Ok(None),
    }
}

/// The two lists of an example, or the one that both are.
fn example_text(
    alloc: Global,
    grammar: &YaccGrammar<u32>,
    example: &Example,
) -> Result<String, AllocError>
    requires reduced { AreSymbolsWithin grammar.now example.now.reduced }
    requires other { AreSymbolsWithin grammar.now example.now.other }
    ensures { IfOk result (λ text. string_bytes text ≡ example_text grammar.now example.now) }
{
    let reduced = side_text(alloc, grammar, &example.reduced)?;
    let other = side_text(alloc, grammar, &example.other)?;
    if reduced == other {
        format!(in alloc; "for example both in {reduced}")
    } else {
        format!(in alloc; "for example the first in {reduced}  and the second in {other}")
    }
}

/// What leads to the state, a dot, and what comes after that.
fn side_text(alloc: Global, grammar: &YaccGrammar<u32>, side: &Side) -> Result<String, AllocError>
    requires { AreSymbolsWithin grammar.now side.now }
    ensures { IfOk result (λ text. string_bytes text ≡ side_text grammar.now side.now) }
{
    let mut text = String::new(alloc);
    write_dotted(&mut text, grammar, &side.prefix, &side.rest)?;
    Ok(text)
}
