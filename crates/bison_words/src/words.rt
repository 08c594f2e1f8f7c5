//! Words of a Yacc or Bison file, and faults in them.

use crate::directive::Directive;
use cfgbase::Span;

/// Code: its text without white space around it, and a span that begins after the brace and is as long as that text.
#[derive(Clone, Copy)]
pub struct Code<'a> {
    pub text: &'a str,
    pub span: Span,
}

/// What a word is.
#[derive(Clone, Copy)]
pub enum Lexeme<'a> {
    /// A letter, `_` or `.`, then letters, digits, `_`, `.` and `-`.
    Identifier(&'a str),
    /// The character in single quotes; `?` if there isn't just one.
    Literal(u8),
    /// What is between double quotes, as it is spelled.
    String(&'a str),
    /// The same in `_("` and `")`.
    Translatable(&'a str),
    /// A number, decimal or hexadecimal; the greatest `usize` if it doesn't fit.
    Number(usize),
    /// `%` and the name of a directive.
    Directive(Directive),
    /// `<t>`.
    Tag,
    /// `<*>`.
    AnyTag,
    /// `<>`.
    NoTag,
    /// `[name]`.
    Name,
    /// `{ .. }`.
    Code(Code<'a>),
    /// `%?{ .. }`.
    Predicate,
    /// `%{ .. %}`.
    Prologue,
    Colon,
    Semicolon,
    Bar,
    Equals,
    /// `%%`.
    Mark,
    /// In place of a word that has a fault.
    Fault,
    /// The end of the text.
    End,
}

/// A word, and its span.
#[derive(Clone, Copy)]
pub struct Word<'a> {
    pub lexeme: Lexeme<'a>,
    pub span: Span,
}

/// What is wrong with a word.
#[derive(Clone, Copy, Debug, PartialEq, Eq)]
pub enum WordFaultKind {
    /// Characters with which no word begins.
    IllegalCharacters,
    /// A number that a letter follows, or that has no digit.
    IllegalIdentifier,
    /// A number above 2147483647.
    IllegalInteger,
    /// An escape that C doesn't have, or that isn't a character.
    IllegalEscape,
    /// Brackets with something else than one name.
    IllegalName,
    /// A character literal without a character.
    EmptyLiteral,
    /// A character literal of more than one character.
    LongLiteral,
    /// A `%` and the name of no directive.
    UnknownDirective,
    /// A comment that doesn't end.
    IncompleteComment,
    /// A character literal that doesn't end.
    IncompleteLiteral,
    /// A string that doesn't end.
    IncompleteString,
    /// A tag that doesn't end.
    IncompleteTag,
    /// A name in brackets that doesn't end.
    IncompleteName,
    /// Code whose first brace nothing closes.
    IncompleteCode,
    /// A prologue without its `%}`.
    IncompletePrologue,
}

/// A fault in a word, and where it is.
#[derive(Clone, Copy)]
pub struct WordFault {
    pub kind: WordFaultKind,
    pub span: Span,
}

/// The words of a text, the faults in them, and what follows the second `%%`.
#[derive(Drop)]
pub struct Words<'a> {
    pub words: Vec<Word<'a>>,
    pub faults: Vec<WordFault>,
    pub epilogue: Option<&'a str>,
}
