//! The errors of Bison files, as the program reports them.

ghost use Rattle.std.specs.Prelude.{◌≡◌, All, IfOk, drop, map, take};
ghost use Rattle.cfgrammar.specs.BisonErrorPlaces.{IsErrorAt};
ghost use Rattle.cfglint.specs.BisonNotes.{noted_bison, noted_bison_errors};
ghost use Rattle.cfglint.specs.Suggestions.{most_suggestions};

use crate::bison_notes::note_on;
use crate::reported_error::ReportedError;
use crate::suggestion::Names;
use cfgrammar::bison::Error;
use std::alloc::{AllocError, Global};

/// The errors, as they are reported. The unknown names of the first are compared with the names of rules and tokens.
///
/// # Errors
///
/// Running out of memory.
pub(crate) fn reported_bison_errors(
    alloc: Global,
    text: &str,
    names: &Names<'_>,
    errors: &[Error],
) -> Result<Vec<ReportedError>, AllocError>
    requires { All (IsErrorAt text.now) errors.now }
    ensures { IfOk result (λ reported. reported.items ≡ noted_bison_errors text.now names.now errors.now) }
{
    let (first, rest) = first_errors(errors);
    let mut reported = noted(alloc, text, names, first)?;
    reported.append(&mut noted(alloc, text, &Names::none(alloc), rest)?)?;
    Ok(reported)
}

/// The errors whose unknown names are looked up, and the rest.
#[tactic(auto, unfolding(crate::specs::Suggestions::most_suggestions))]
fn first_errors(errors: &[Error]) -> (&[Error], &[Error])
    ensures first { result.0.now ≡ take most_suggestions errors.now }
    ensures rest { result.1.now ≡ drop most_suggestions errors.now }
{
    errors.split_at(errors.len().min(20))
}

/// The errors, each with its note.
fn noted(
    alloc: Global,
    text: &str,
    names: &Names<'_>,
    errors: &[Error],
) -> Result<Vec<ReportedError>, AllocError>
    requires { All (IsErrorAt text.now) errors.now }
    ensures { IfOk result (λ reported. reported.items ≡ map (noted_bison text.now names.now) errors.now) }
{
    let mut reported = Vec::new(alloc);
    for error in errors {
        let hint = note_on(alloc, text, names, error)?;
        reported.push(ReportedError::of_bison(alloc, error, hint)?)?;
    }
    Ok(reported)
}
