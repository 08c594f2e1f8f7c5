//! The sorts of words.

use crate::item::Associativity;

/// What a word is, without its text.
#[derive(Clone, Copy)]
pub enum Sort {
    Identifier,
    /// A character between single quotes.
    Literal,
    /// A string between double quotes.
    String,
    /// A string as `_("..")`.
    Translatable,
    Number,
    /// A directive that declares something.
    Declaration(Declaration),
    /// A directive of a production.
    Modifier(Modifier),
    /// `<type>`.
    Tag,
    /// `<*>` or `<>`.
    OtherTag,
    /// `[name]`.
    Name,
    /// `{ .. }`.
    Code,
    /// `%?{ .. }`.
    Predicate,
    /// `%{ .. %}`.
    Prologue,
    Colon,
    Semicolon,
    Bar,
    Equals,
    /// `%%`.
    Mark,
    /// What is no word, for which a fault was found already.
    Fault,
    /// The end of the words.
    End,
}

/// What a directive declares, by what follows it.
#[derive(Clone, Copy)]
pub enum Declaration {
    /// `%token`, `%term`.
    Tokens,
    /// `%nterm`.
    Rules,
    /// `%type`.
    Symbols,
    /// `%left`, `%right`, `%nonassoc`, `%binary`, `%precedence`.
    Level(Associativity),
    /// `%start`.
    Start,
    /// `%union`, `%code`: code that may have a name.
    NamedCode,
    /// `%destructor`, `%printer`: code and symbols.
    SymbolsCode,
    /// `%default-prec`, `%no-default-prec`.
    DefaultPrecedence(bool),
    /// `%initial-action`.
    OnlyCode,
    /// `%param`, `%parse-param`, `%lex-param`.
    Codes,
    /// `%define`.
    Variable,
    /// `%expect`, which may also be in a production.
    Expect,
    /// `%expect-rr`, which may also be in a production.
    ExpectReduceReduce,
    /// `%require` and the like: a string.
    Text,
    /// `%header`, `%defines`: a string that may be missing.
    OptionalText,
    /// `%locations` and the like.
    Flag,
}

/// A directive of a production.
#[derive(Clone, Copy)]
pub enum Modifier {
    /// `%prec`.
    Precedence,
    /// `%empty`.
    Empty,
    /// `%dprec`.
    DynamicPrecedence,
    /// `%merge`.
    Merge,
}
