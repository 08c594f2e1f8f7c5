//! The errors of files of the library's kinds, as the program reports them.

ghost use Rattle.std.specs.Prelude.{◌≡◌, IfOk, drop, map, string_bytes, take};
ghost use Rattle.std.specs.Option.{option_map};
ghost use Rattle.cfglint.specs.ReportedErrors.{note_on, noted, noted_errors};
ghost use Rattle.cfglint.specs.Suggestions.{most_suggestions};

use crate::reported_error::ReportedError;
use crate::suggestion::{Names, suggestion};
use cfgrammar::hint_for;
use cfgrammar::yacc::YaccGrammarError;
use std::alloc::{AllocError, Global};

/// The errors, as they are reported. The unknown names of the first are compared with the names of rules and tokens.
pub(crate) fn reported_errors(
    alloc: Global,
    text: &str,
    names: &Names<'_>,
    errors: &[YaccGrammarError],
) -> Result<Vec<ReportedError>, AllocError>
    ensures { IfOk result (λ reported. reported.items
        ≡ noted_errors text.now names.now errors.now) }
{
    let (first, rest) = first_errors(errors);
    let mut reported = noted(alloc, text, names, first)?;
    reported.append(&mut noted(alloc, text, &Names::none(alloc), rest)?)?;
    Ok(reported)
}

/// The errors whose unknown names are looked up, and the rest.
#[tactic(auto, unfolding(crate::specs::Suggestions::most_suggestions))]
fn first_errors(errors: &[YaccGrammarError]) -> (&[YaccGrammarError], &[YaccGrammarError])
    ensures first { result.0.now ≡ take most_suggestions errors.now }
    ensures rest { result.1.now ≡ drop most_suggestions errors.now }
{
    errors.split_at(errors.len().min(20))
}

/// The errors, each with its note.
fn noted(
    alloc: Global,
    text: &str,
    names: &Names<'_>,
    errors: &[YaccGrammarError],
) -> Result<Vec<ReportedError>, AllocError>
    ensures { IfOk result (λ reported. reported.items
        ≡ map (noted text.now names.now) errors.now) }
{
    let mut reported = Vec::new(alloc);
    for error in errors {
        let hint = hint_of(alloc, text, names, error)?;
        reported.push(ReportedError::of_yacc(alloc, error, hint)?)?;
    }
    Ok(reported)
}

/// The note on an error.
fn hint_of(
    alloc: Global,
    text: &str,
    names: &Names<'_>,
    error: &YaccGrammarError,
) -> Result<Option<String>, AllocError>
    ensures { IfOk result (λ hint. option_map (λ words. string_bytes words) hint
        ≡ note_on text.now names.now error.now) }
{
    match hint_for(text, error) {
        Some(hint) => Ok(Some(hint.to_string(alloc)?)),
        None => suggestion(alloc, names, error.kind()),
    }
}
