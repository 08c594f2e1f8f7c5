//! What is wrong with a file.

ghost use Rattle.std.specs.Prelude.{◌≡◌, ◌∷◌, ◌++◌, [], OnOk};

use bison_reader::Expected;
use bison_words::WordFaultKind;
use cfgbase::Span;
use std::alloc::AllocError;

/// What an error is.
#[derive(Clone, Copy, Debug)]
pub enum ErrorKind {
    /// A fault in a word.
    Word(WordFaultKind),
    /// A word that can't be here, and what may be.
    Unexpected(Expected),
    /// A production with a second `%prec`, `%empty` or `%dprec`; the first one is the other place.
    RepeatedInProduction,
    /// A `%dprec` of 0.
    IllegalPriority,
    /// `%empty` in a production that isn't empty.
    NonEmptyProduction,
    /// What `%nterm` can't have: a literal, a number or a string.
    NotForRules,
    /// A second start; the first one is the other place.
    SeveralStarts,
    /// A rule that is a token too; the other place is where it is a token first.
    RuleIsToken,
    /// A token that has a precedence already; the other place is where it was given.
    DuplicatePrecedence,
    /// A symbol that is neither a token nor a rule.
    UnknownSymbol,
    /// A start that isn't a rule.
    InvalidStart,
    /// No production in the whole file.
    NoRule,
}

/// An error: what is wrong, where, and beside which other place.
#[derive(Clone, Copy, Debug)]
pub struct Error {
    /// What it is.
    pub kind: ErrorKind,
    /// Where it is.
    pub span: Span,
    /// The other place, as that of what is repeated.
    pub other: Option<Span>,
}

/// The words of the `%prec`, the `%empty` and the `%dprec` of a production, so far.
#[derive(Clone, Copy)]
pub(crate) struct Once {
    pub(crate) precedence: Option<usize>,
    pub(crate) empty: Option<usize>,
    pub(crate) dynamic: Option<usize>,
}

impl Error {
    ghost use Rattle.bison_errors.specs.Errors.{error_at, error_beside, offset_of};

    pub(crate) fn at(kind: ErrorKind, span: Span) -> Self
        ensures { result ≡ error_at kind span }
    {
        Error {
            kind,
            span,
            other: None,
        }
    }

    pub(crate) fn beside(kind: ErrorKind, span: Span, other: Span) -> Self
        ensures { result ≡ error_beside kind span other }
    {
        Error {
            kind,
            span,
            other: Some(other),
        }
    }

    /// The offset where it begins.
    pub fn offset(&self) -> usize
        ensures { result ≡ offset_of self.now }
    {
        self.span.start()
    }
}

/// Adds an error to a list.
pub(crate) fn push(errors: &mut Vec<Error>, error: Error) -> Result<(), AllocError>
    ensures { OnOk result (errors.new.items ≡ errors.old.items ++ error ∷ []) }
{
    errors.push(error)?;
    Ok(())
}
