//! The errors for faults of a file, for what it declares more than once, for those of a section, and for a grammar that
//! is too large.

ghost use Rattle.std.specs.Prelude.{◌≡◌, map, IfOk};
ghost use Rattle.cfgsection.specs.SectionReads.{errors_view};
ghost use Rattle.cfgerrors.specs.Errors.{header_error, kind_view};
ghost use Rattle.cfgfaults.specs.FaultErrors.{IsFaultOf, IsTooSmall, error_of, kind_of, repeated_kind};

use cfgbase::Span;
use cfgerrors::YaccGrammarErrorKind::{
    DuplicateActiontypeDeclaration, DuplicateAvoidInsertDeclaration, DuplicateEPP,
    DuplicateExpectDeclaration, DuplicateExpectRRDeclaration, DuplicateImplicitTokensDeclaration,
    DuplicatePrecedence, DuplicateStartDeclaration,
};
use cfgerrors::{HeaderError, YaccFault, YaccGrammarError, YaccGrammarErrorKind, error_at};
use cfgitems::UniqueKind;
use cfgsection::HeaderFault;
use cfgwords::fault::{Fault, FaultKind};
use std::alloc::{AllocError, Global};

/// The kind of error for this kind of fault.
fn kind_of(kind: FaultKind) -> YaccGrammarErrorKind
    ensures { kind_view result ≡ kind_of kind }
{
    match kind {
        FaultKind::IllegalInteger => YaccGrammarErrorKind::IllegalInteger,
        FaultKind::IllegalName => YaccGrammarErrorKind::IllegalName,
        FaultKind::IllegalString => YaccGrammarErrorKind::IllegalString,
        FaultKind::IncompleteRule => YaccGrammarErrorKind::IncompleteRule,
        FaultKind::IncompleteComment => YaccGrammarErrorKind::IncompleteComment,
        FaultKind::IncompleteAction => YaccGrammarErrorKind::IncompleteAction,
        FaultKind::InvalidString => YaccGrammarErrorKind::InvalidString,
        FaultKind::MissingColon => YaccGrammarErrorKind::MissingColon,
        FaultKind::MissingRightArrow => YaccGrammarErrorKind::MissingRightArrow,
        FaultKind::NonEmptyProduction => YaccGrammarErrorKind::NonEmptyProduction,
        FaultKind::PrematureEnd => YaccGrammarErrorKind::PrematureEnd,
        FaultKind::ProductionNotTerminated => YaccGrammarErrorKind::ProductionNotTerminated,
        FaultKind::UnknownDeclaration => YaccGrammarErrorKind::UnknownDeclaration,
        FaultKind::ReachedEOL => YaccGrammarErrorKind::ReachedEOL,
        FaultKind::UnknownSymbol => YaccGrammarErrorKind::UnknownSymbol,
    }
}

/// The error for what stopped a reading.
pub fn error_of(alloc: Global, fault: Fault) -> Result<YaccGrammarError, AllocError>
    ensures { IfOk result (λ error. error ≡ error_of fault) }
{
    error_at(alloc, kind_of(fault.kind), fault.span)
}

/// The kind of error for what is declared more than once.
pub fn repeated_kind(kind: UniqueKind) -> YaccGrammarErrorKind
    ensures { kind_view result ≡ repeated_kind kind }
{
    match kind {
        UniqueKind::Start => DuplicateStartDeclaration,
        UniqueKind::Expect => DuplicateExpectDeclaration,
        UniqueKind::ExpectReduceReduce => DuplicateExpectRRDeclaration,
        UniqueKind::ActionType => DuplicateActiontypeDeclaration,
        UniqueKind::PrintedForm => DuplicateEPP,
        UniqueKind::Precedence => DuplicatePrecedence,
        UniqueKind::AvoidInsert => DuplicateAvoidInsertDeclaration,
        UniqueKind::ImplicitToken => DuplicateImplicitTokensDeclaration,
    }
}

/// The errors of a section.
pub fn section_errors(
    alloc: Global,
    found: Vec<HeaderError<Span>>,
) -> Result<Vec<YaccGrammarError>, AllocError>
    ensures { IfOk result (λ errors. errors.items ≡ map header_error (errors_view found.items)) }
{
    let mut errors = Vec::new(alloc);
    for error in found {
        errors.push(YaccGrammarError::from(error))?;
    }
    Ok(errors)
}

/// Why a text names no kind: the errors of its section, or running out of memory.
pub fn fault_of(alloc: Global, fault: HeaderFault) -> YaccFault
    ensures { IsFaultOf fault result }
{
    match fault {
        HeaderFault::Errors(found) => match section_errors(alloc, found) {
            Ok(errors) => YaccFault::Errors(errors),
            Err(_) => YaccFault::OutOfMemory,
        },
        HeaderFault::OutOfMemory => YaccFault::OutOfMemory,
    }
}

/// The index type cannot count the grammar.
pub fn storage_too_small(alloc: Global) -> Result<YaccFault, AllocError>
    ensures { IfOk result IsTooSmall }
{
    let mut spans = Vec::new(alloc);
    spans.push(Span::new(0, 0))?;
    let mut errors = Vec::new(alloc);
    errors.push(YaccGrammarError::new(YaccGrammarErrorKind::StorageTooSmall, spans))?;
    Ok(YaccFault::Errors(errors))
}
