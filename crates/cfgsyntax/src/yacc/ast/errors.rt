//! The errors of a file, in order.

ghost use Rattle.std.specs.Prelude.{◌≡◌, map, option_map, IfOk};
ghost use Rattle.cfgast.specs.Duplicates.{duplicates};
ghost use Rattle.cfgitems.specs.SyntaxView.{occurrence_view};
ghost use Rattle.cfgast.specs.TreeView.{syntax};
ghost use Rattle.cfgsyntax.specs.Faults.{duplicate_error, stop_errors, all_errors};
ghost use Rattle.cfgsyntax.specs.Inner.Steps.{stop_view};

use crate::read::Stopped;
use cfgast::GrammarAST;
use cfgast::duplicates::duplicates;
use cfgerrors::YaccGrammarError;
use cfgfaults::{error_of, repeated_kind, section_errors};
use cfgitems::Occurrence;
use cfgvalidation::check;
use std::alloc::{AllocError, Global};

/// The errors for what is declared more than once.
fn duplicate_errors(
    alloc: Global,
    occurrences: &[Occurrence],
) -> Result<Vec<YaccGrammarError>, AllocError>
    ensures { IfOk result (λ errors. errors.items
        ≡ map duplicate_error (duplicates (map occurrence_view occurrences.now))) }
{
    let mut errors = Vec::new(alloc);
    for (what, offsets) in duplicates(alloc, occurrences)? {
        errors.push(YaccGrammarError::new(repeated_kind(what.kind), offsets))?;
    }
    Ok(errors)
}

/// The errors for what stopped a reading.
fn stop_errors(alloc: Global, stop: Option<Stopped>) -> Result<Vec<YaccGrammarError>, AllocError>
    ensures { IfOk result (λ errors. errors.items ≡ stop_errors (option_map stop_view stop)) }
{
    match stop {
        None => Ok(Vec::new(alloc)),
        Some(Stopped::Section(found)) => section_errors(alloc, found),
        Some(Stopped::File(fault)) => {
            let error = error_of(alloc, fault)?;
            let mut errors = Vec::new(alloc);
            errors.push(error)?;
            Ok(errors)
        }
    }
}

/// The errors of a file that was read as this syntax, up to what stopped the reading.
pub(super) fn errors_found(
    alloc: Global,
    ast: &GrammarAST,
    stop: Option<Stopped>,
) -> Result<Vec<YaccGrammarError>, AllocError>
    ensures { IfOk result (λ errors. errors.items ≡ all_errors (syntax ast.now) (option_map stop_view stop)) }
{
    let mut errors = duplicate_errors(alloc, ast.occurrences())?;
    errors.append(&mut stop_errors(alloc, stop)?)?;
    if let Err(invalid) = check(ast) {
        errors.push(invalid.error(alloc)?)?;
    }
    Ok(errors)
}
