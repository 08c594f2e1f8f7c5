//! The words that name kinds of errors in reports.

ghost use Rattle.std.specs.Prelude.{◌≡◌};
ghost use Rattle.bison_errors.specs.ErrorWords.{error_word, fault_word};

use crate::error::ErrorKind;
use bison_words::WordFaultKind;

/// The word of a fault in a word.
fn fault_word(kind: WordFaultKind) -> &'static str
    ensures { result.now ≡ fault_word kind }
{
    match kind {
        WordFaultKind::IllegalCharacters => "illegal-characters",
        WordFaultKind::IllegalIdentifier => "illegal-identifier",
        WordFaultKind::IllegalInteger => "illegal-integer",
        WordFaultKind::IllegalEscape => "illegal-escape",
        WordFaultKind::IllegalName => "illegal-bracketed-name",
        WordFaultKind::EmptyLiteral => "empty-literal",
        WordFaultKind::LongLiteral => "long-literal",
        WordFaultKind::UnknownDirective => "unknown-directive",
        WordFaultKind::IncompleteComment => "incomplete-comment",
        WordFaultKind::IncompleteLiteral => "incomplete-literal",
        WordFaultKind::IncompleteString => "incomplete-string",
        WordFaultKind::IncompleteTag => "incomplete-tag",
        WordFaultKind::IncompleteName => "incomplete-bracketed-name",
        WordFaultKind::IncompleteCode => "incomplete-code",
        WordFaultKind::IncompletePrologue => "incomplete-prologue",
    }
}

impl ErrorKind {
    /// The word that names the kind in reports, as `duplicate-precedence`: lowercase letters and `-`. No two kinds
    /// share a word, except that all words that can't be where they are have the same.
    pub fn word(self) -> &'static str
        ensures { result.now ≡ error_word self }
    {
        match self {
            ErrorKind::Word(fault) => fault_word(fault),
            ErrorKind::Unexpected(_) => "unexpected-word",
            ErrorKind::RepeatedInProduction => "repeated-in-production",
            ErrorKind::IllegalPriority => "illegal-priority",
            ErrorKind::NonEmptyProduction => "non-empty-production",
            ErrorKind::NotForRules => "not-for-rules",
            ErrorKind::SeveralStarts => "several-starts",
            ErrorKind::RuleIsToken => "rule-is-token",
            ErrorKind::DuplicatePrecedence => "duplicate-precedence",
            ErrorKind::UnknownSymbol => "undeclared-symbol",
            ErrorKind::InvalidStart => "invalid-start-rule",
            ErrorKind::NoRule => "no-rules",
        }
    }
}
