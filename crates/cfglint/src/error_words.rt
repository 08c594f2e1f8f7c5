//! The words of the kinds of errors.

ghost use Rattle.std.specs.Prelude.{◌≡◌};
ghost use Rattle.cfgrammar.specs.Errors.{kind_view};
ghost use Rattle.cfgrammar.specs.HeaderErrors.{error_kind_view};
ghost use Rattle.cfglint.specs.ErrorWords.{error_word, has_symbols_of, section_word};

use cfgrammar::header::HeaderErrorKind;
use cfgrammar::yacc::YaccGrammarErrorKind;

/// The word of a kind: it is in an error's line, and JSON's `kind`.
pub(crate) fn error_word(kind: &YaccGrammarErrorKind) -> &'static str
    ensures { result.now ≡ error_word (kind_view kind.now) }
{
    match kind {
        YaccGrammarErrorKind::IllegalInteger => "illegal-integer",
        YaccGrammarErrorKind::IllegalName => "illegal-name",
        YaccGrammarErrorKind::IllegalString => "illegal-string",
        YaccGrammarErrorKind::IncompleteRule => "incomplete-rule",
        YaccGrammarErrorKind::IncompleteComment => "incomplete-comment",
        YaccGrammarErrorKind::IncompleteAction => "incomplete-action",
        YaccGrammarErrorKind::MissingColon => "missing-colon",
        YaccGrammarErrorKind::MissingRightArrow => "missing-right-arrow",
        YaccGrammarErrorKind::MismatchedBrace => "mismatched-brace",
        YaccGrammarErrorKind::NonEmptyProduction => "non-empty-production",
        YaccGrammarErrorKind::PrematureEnd => "premature-end",
        YaccGrammarErrorKind::ProductionNotTerminated => "production-not-terminated",
        YaccGrammarErrorKind::ProgramsNotSupported => "programs-not-supported",
        YaccGrammarErrorKind::UnknownDeclaration => "unknown-declaration",
        YaccGrammarErrorKind::PrecNotFollowedByToken => "prec-without-token",
        YaccGrammarErrorKind::DuplicatePrecedence => "duplicate-precedence",
        YaccGrammarErrorKind::DuplicateAvoidInsertDeclaration => "duplicate-avoid-insert",
        YaccGrammarErrorKind::DuplicateImplicitTokensDeclaration => "duplicate-implicit-tokens",
        YaccGrammarErrorKind::DuplicateExpectDeclaration => "duplicate-expect",
        YaccGrammarErrorKind::DuplicateExpectRRDeclaration => "duplicate-expect-rr",
        YaccGrammarErrorKind::DuplicateStartDeclaration => "duplicate-start",
        YaccGrammarErrorKind::DuplicateActiontypeDeclaration => "duplicate-actiontype",
        YaccGrammarErrorKind::DuplicateEPP => "duplicate-epp",
        YaccGrammarErrorKind::ReachedEOL => "reached-eol",
        YaccGrammarErrorKind::InvalidString => "invalid-string",
        YaccGrammarErrorKind::NoStartRule => "no-start-rule",
        YaccGrammarErrorKind::UnknownSymbol => "unknown-symbol",
        YaccGrammarErrorKind::InvalidStartRule(_) => "invalid-start-rule",
        YaccGrammarErrorKind::UnknownRuleRef(_) => "unknown-rule",
        YaccGrammarErrorKind::UnknownToken(_) => "unknown-token",
        YaccGrammarErrorKind::NoPrecForToken(_) => "no-precedence",
        YaccGrammarErrorKind::UnknownEPP(_) => "unknown-epp",
        YaccGrammarErrorKind::ExpectedInput(_) => "expected-input",
        YaccGrammarErrorKind::InvalidYaccKind => "invalid-yacc-kind",
        YaccGrammarErrorKind::Header(kind, _) => section_word(kind),
        YaccGrammarErrorKind::StorageTooSmall => "storage-too-small",
    }
}

/// Whether the spans of an error of this kind are names of symbols: those that the file doesn't have.
pub(crate) fn has_symbols(kind: &YaccGrammarErrorKind) -> bool
    ensures { result ≡ has_symbols_of (kind_view kind.now) }
{
    match kind {
        YaccGrammarErrorKind::InvalidStartRule(_)
        | YaccGrammarErrorKind::UnknownRuleRef(_)
        | YaccGrammarErrorKind::UnknownToken(_)
        | YaccGrammarErrorKind::UnknownEPP(_) => true,
        _ => false,
    }
}

/// The word of a kind of error in a section.
fn section_word(kind: &HeaderErrorKind) -> &'static str
    ensures { result.now ≡ section_word (error_kind_view kind.now) }
{
    match kind {
        HeaderErrorKind::MissingGrmtoolsSection => "missing-section",
        HeaderErrorKind::IllegalName => "section-illegal-name",
        HeaderErrorKind::ExpectedToken(_) => "section-expected-token",
        HeaderErrorKind::UnexpectedToken(_, _) => "section-unexpected-token",
        HeaderErrorKind::DuplicateEntry => "section-duplicate-entry",
        HeaderErrorKind::InvalidEntry(_) => "section-invalid-entry",
        HeaderErrorKind::ConversionError(_, _) => "section-conversion",
    }
}
