//! What `==` and `clone` of errors, and of kinds of warnings, compare and copy. They are derived, so each law names the
//! impl, as in `⟦<YaccGrammarErrorKind as PartialEq>⟧`, and holds for every value.

ghost use Rattle.std.specs.Prelude.{◌≡◌, ◌↔◌, IsTrue};
ghost use Rattle.std.specs.List.{AllZip};
ghost use Rattle.cfgerrors.specs.Errors.{kind_view};
ghost use Rattle.cfgerrors.specs.HeaderErrors.{error_kind_view};
ghost use Rattle.cfgerrors.specs.declared.error.YaccGrammarErrorKind.{YaccGrammarErrorKind};
ghost use Rattle.cfgerrors.specs.declared.header.HeaderError.{HeaderError};
ghost use Rattle.cfgerrors.specs.declared.header.HeaderErrorKind.{HeaderErrorKind};
ghost use Rattle.cfgerrors.specs.declared.warning.YaccGrammarWarningKind.{YaccGrammarWarningKind};

use crate::error::YaccGrammarErrorKind;
use crate::header::{HeaderError, HeaderErrorKind};
use crate::warning::YaccGrammarWarningKind;

/// Kinds of errors are equal exactly if they show the same: the same kind, with the same name or character if it has
/// one. A clone shows what its source does.
pub fn error_kinds_are_what_they_show()
    ensures equal { (a b : YaccGrammarErrorKind) → IsTrue (⟦<YaccGrammarErrorKind as PartialEq>⟧.eq a b)
        ↔ (kind_view a ≡ kind_view b) }
    ensures clone { (a b : YaccGrammarErrorKind) → ⟦<YaccGrammarErrorKind as Clone>⟧.is_clone a b
        → kind_view b ≡ kind_view a }
{}

/// Kinds of errors in a section are equal exactly if they show the same: the same kind, with the same character and
/// texts if it has some. A clone equals its source and allocates nothing.
pub fn header_error_kinds_are_what_they_show()
    ensures equal { (a b : HeaderErrorKind) → IsTrue (⟦<HeaderErrorKind as PartialEq>⟧.eq a b)
        ↔ (error_kind_view a ≡ error_kind_view b) }
    ensures clone { (a b : HeaderErrorKind) → ⟦<HeaderErrorKind as Clone>⟧.is_clone a b → b ≡ a }
    ensures cloned { (a : HeaderErrorKind) → ⟦<HeaderErrorKind as Clone>⟧.is_infallible a }
{}

/// A clone of an error in a section has its kind and clones of its locations, in order.
pub fn header_errors_are_cloned<T: Clone>()
    ensures kind { (a b : HeaderError T) → ⟦<HeaderError<T> as Clone>⟧.is_clone a b → b.kind ≡ a.kind }
    ensures locations { (a b : HeaderError T) → ⟦<HeaderError<T> as Clone>⟧.is_clone a b
        → AllZip T.is_clone a.locations.items b.locations.items }
{}

/// The two kinds of warnings differ, and each is equal to itself. A clone equals its source.
pub fn warning_kinds_are_distinct()
    ensures equal { (a b : YaccGrammarWarningKind)
        → IsTrue (⟦<YaccGrammarWarningKind as PartialEq>⟧.eq a b) ↔ (a ≡ b) }
    ensures clone { (a b : YaccGrammarWarningKind) → ⟦<YaccGrammarWarningKind as Clone>⟧.is_clone a b
        → b ≡ a }
    ensures cloned { (a : YaccGrammarWarningKind) → ⟦<YaccGrammarWarningKind as Clone>⟧.is_infallible a }
{}
