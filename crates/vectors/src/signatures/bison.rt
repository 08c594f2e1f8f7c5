//! What is read of Yacc and Bison files.

use cfgrammar::Span;
use cfgrammar::bison::{
    Associativity, BisonFault, BisonFile, Error, ErrorKind, Expected, WordFaultKind,
};
use cfgrammar::yacc::YaccGrammar;
use cfgrammar::yacc::ast::GrammarAST;
use std::alloc::Global;
use std::error;
use std::fmt::{Debug, Display};

/// What a file has besides its grammar.
pub fn parts_of(file: &BisonFile) -> (&GrammarAST, &[Error], bool, &[Associativity], bool) {
    (
        file.ast(),
        file.errors(),
        file.is_valid(),
        file.levels(),
        file.default_precedence(),
    )
}

/// The grammar of a file.
pub fn grammar_of(alloc: Global, file: &BisonFile) -> Result<YaccGrammar<u32>, BisonFault> {
    file.grammar(alloc)
}

/// The word of a kind of errors.
pub fn word_of(kind: ErrorKind) -> &'static str {
    kind.word()
}

/// Where an error is, the other place, and its offset.
pub fn where_is(error: &Error) -> (Span, Option<Span>, usize) {
    (error.span, error.other, error.offset())
}

/// Whether an error is one of the text, and not one of its names.
pub fn is_of_text(kind: ErrorKind) -> bool {
    match kind {
        ErrorKind::Word(fault) => is_fault(fault),
        ErrorKind::Unexpected(expected) => is_expected(expected),
        ErrorKind::RepeatedInProduction
        | ErrorKind::IllegalPriority
        | ErrorKind::NonEmptyProduction => true,
        ErrorKind::NotForRules
        | ErrorKind::SeveralStarts
        | ErrorKind::RuleIsToken
        | ErrorKind::DuplicatePrecedence
        | ErrorKind::UnknownSymbol
        | ErrorKind::InvalidStart
        | ErrorKind::NoRule => false,
    }
}

fn is_fault(fault: WordFaultKind) -> bool {
    match fault {
        WordFaultKind::IllegalCharacters
        | WordFaultKind::IllegalIdentifier
        | WordFaultKind::IllegalInteger
        | WordFaultKind::IllegalEscape
        | WordFaultKind::IllegalName
        | WordFaultKind::EmptyLiteral
        | WordFaultKind::LongLiteral
        | WordFaultKind::UnknownDirective
        | WordFaultKind::IncompleteComment
        | WordFaultKind::IncompleteLiteral
        | WordFaultKind::IncompleteString
        | WordFaultKind::IncompleteTag
        | WordFaultKind::IncompleteName
        | WordFaultKind::IncompleteCode
        | WordFaultKind::IncompletePrologue => true,
    }
}

fn is_expected(expected: Expected) -> bool {
    match expected {
        Expected::Declaration
        | Expected::Rule
        | Expected::Part
        | Expected::TokenName
        | Expected::Symbol
        | Expected::SymbolOrTag
        | Expected::Identifier
        | Expected::Number
        | Expected::String
        | Expected::Code
        | Expected::Tag
        | Expected::Colon
        | Expected::Semicolon => true,
    }
}

fn have_traits<
    A: Copy + Debug + Display,
    B: Copy + Debug,
    C: Copy + Debug,
    D: Copy + Debug,
    E: Debug + error::Error,
    F: Debug,
>() {}

/// Each type with its traits.
pub fn traits() {
    have_traits::<ErrorKind, Expected, Associativity, WordFaultKind, BisonFault, BisonFile>();
    have_traits::<Error, Expected, Associativity, WordFaultKind, BisonFault, BisonFile>();
}
