//! What is printed of an error.

ghost use Rattle.std.specs.Prelude.{◌≡◌, Some};
ghost use Rattle.bison_errors.specs.ErrorTexts.{error_text, expected_text, fault_text};

use crate::error::{Error, ErrorKind};
use bison_reader::Expected;
use bison_words::WordFaultKind;
use std::fmt;

/// The text of a fault in a word.
fn fault_text(kind: WordFaultKind) -> &'static str
    ensures { result.now ≡ fault_text kind }
{
    match kind {
        WordFaultKind::IllegalCharacters => "Illegal characters",
        WordFaultKind::IllegalIdentifier => "Illegal identifier",
        WordFaultKind::IllegalInteger => "Illegal integer",
        WordFaultKind::IllegalEscape => "Illegal escape",
        WordFaultKind::IllegalName => "Illegal name in brackets",
        WordFaultKind::EmptyLiteral => "Empty character literal",
        WordFaultKind::LongLiteral => "Character literal of more than one character",
        WordFaultKind::UnknownDirective => "Unknown directive",
        WordFaultKind::IncompleteComment => "Incomplete comment",
        WordFaultKind::IncompleteLiteral => "Incomplete character literal",
        WordFaultKind::IncompleteString => "Incomplete string",
        WordFaultKind::IncompleteTag => "Incomplete tag",
        WordFaultKind::IncompleteName => "Incomplete name in brackets",
        WordFaultKind::IncompleteCode => "Incomplete code",
        WordFaultKind::IncompletePrologue => "Incomplete prologue",
    }
}

/// The text of a word that can't be here: what may be.
fn expected_text(expected: Expected) -> &'static str
    ensures { result.now ≡ expected_text expected }
{
    match expected {
        Expected::Declaration => "Expected a declaration or '%%'",
        Expected::Rule => "Expected a rule or a declaration",
        Expected::Part => "Expected a part of a production or its end",
        Expected::TokenName => "Expected the name of a token",
        Expected::Symbol => "Expected a symbol",
        Expected::SymbolOrTag => "Expected a symbol or a tag",
        Expected::Identifier => "Expected an identifier",
        Expected::Number => "Expected a number",
        Expected::String => "Expected a string",
        Expected::Code => "Expected code in braces",
        Expected::Tag => "Expected a tag",
        Expected::Colon => "Expected ':'",
        Expected::Semicolon => "Expected ';'",
    }
}

/// The text of a kind.
fn error_text(kind: ErrorKind) -> &'static str
    ensures { result.now ≡ error_text kind }
{
    match kind {
        ErrorKind::Word(fault) => fault_text(fault),
        ErrorKind::Unexpected(expected) => expected_text(expected),
        ErrorKind::RepeatedInProduction => {
            "A production has one %prec, one %empty and one %dprec at most"
        }
        ErrorKind::IllegalPriority => "%dprec has to be at least 1",
        ErrorKind::NonEmptyProduction => "%empty used in non-empty production",
        ErrorKind::NotForRules => "%nterm has names of rules only",
        ErrorKind::SeveralStarts => "More than one start rule",
        ErrorKind::RuleIsToken => "The rule's name is that of a token",
        ErrorKind::DuplicatePrecedence => "Token has multiple precedences specified",
        ErrorKind::UnknownSymbol => "Unknown symbol: neither a token nor a rule",
        ErrorKind::InvalidStart => "The start isn't a rule",
        ErrorKind::NoRule => "There is no rule",
    }
}

impl fmt::Display for ErrorKind {
    ghost output = { λ kind. Some (error_text kind) };

    ghost styled_output = { λ kind _. Some (error_text kind) };

    fn fmt<W: fmt::Write>(&self, f: &mut fmt::Formatter<W>) -> fmt::Result {
        f.write_str(error_text(*self))
    }
}

impl fmt::Display for Error {
    ghost output = { λ error. Some (error_text error.kind) };

    ghost styled_output = { λ error _. Some (error_text error.kind) };

    fn fmt<W: fmt::Write>(&self, f: &mut fmt::Formatter<W>) -> fmt::Result {
        self.kind.fmt(f)
    }
}
