//! The sorts of the words of a text.

ghost use Rattle.std.specs.Prelude.{◌≡◌, IfOk, map};
ghost use Rattle.bison_words.specs.Words.{lexeme_view, word_view};
ghost use Rattle.bison_reader.specs.Sorts.{directive_sort, lexeme_sort, sorts_of};

use crate::item::Associativity;
use crate::sort::{Declaration, Modifier, Sort};
use bison_words::{Directive, Lexeme, Word};
use std::alloc::{AllocError, Global};

/// What a directive declares, or does in a production.
fn directive_sort(directive: Directive) -> Sort
    ensures { result ≡ directive_sort directive }
{
    let declaration = match directive {
        Directive::Token | Directive::Term => Declaration::Tokens,
        Directive::Nterm => Declaration::Rules,
        Directive::SymbolType => Declaration::Symbols,
        Directive::Left => Declaration::Level(Associativity::Left),
        Directive::Right => Declaration::Level(Associativity::Right),
        Directive::Nonassoc | Directive::Binary => Declaration::Level(Associativity::Nonassoc),
        Directive::Precedence => Declaration::Level(Associativity::OnlyPrecedence),
        Directive::Start => Declaration::Start,
        Directive::Union | Directive::Code => Declaration::NamedCode,
        Directive::Destructor | Directive::Printer => Declaration::SymbolsCode,
        Directive::DefaultPrec => Declaration::DefaultPrecedence(true),
        Directive::NoDefaultPrec => Declaration::DefaultPrecedence(false),
        Directive::FilePrefix
        | Directive::Language
        | Directive::NamePrefix
        | Directive::Output
        | Directive::Require
        | Directive::Skeleton => Declaration::Text,
        Directive::Define => Declaration::Variable,
        Directive::Defines | Directive::Header => Declaration::OptionalText,
        Directive::Expect => Declaration::Expect,
        Directive::ExpectRr => Declaration::ExpectReduceReduce,
        Directive::InitialAction => Declaration::OnlyCode,
        Directive::LexParam | Directive::Param | Directive::ParseParam => Declaration::Codes,
        Directive::Prec => return Sort::Modifier(Modifier::Precedence),
        Directive::Empty => return Sort::Modifier(Modifier::Empty),
        Directive::Dprec => return Sort::Modifier(Modifier::DynamicPrecedence),
        Directive::Merge => return Sort::Modifier(Modifier::Merge),
        _ => Declaration::Flag,
    };
    Sort::Declaration(declaration)
}

/// The sort of a word.
pub fn sort_of(lexeme: Lexeme<'_>) -> Sort
    ensures { result ≡ lexeme_sort (lexeme_view lexeme.entry) }
{
    match lexeme {
        Lexeme::Identifier(_) => Sort::Identifier,
        Lexeme::Literal(_) => Sort::Literal,
        Lexeme::String(_) => Sort::String,
        Lexeme::Translatable(_) => Sort::Translatable,
        Lexeme::Number(_) => Sort::Number,
        Lexeme::Directive(directive) => directive_sort(directive),
        Lexeme::Tag => Sort::Tag,
        Lexeme::AnyTag | Lexeme::NoTag => Sort::OtherTag,
        Lexeme::Name => Sort::Name,
        Lexeme::Code(_) => Sort::Code,
        Lexeme::Predicate => Sort::Predicate,
        Lexeme::Prologue => Sort::Prologue,
        Lexeme::Colon => Sort::Colon,
        Lexeme::Semicolon => Sort::Semicolon,
        Lexeme::Bar => Sort::Bar,
        Lexeme::Equals => Sort::Equals,
        Lexeme::Mark => Sort::Mark,
        Lexeme::Fault => Sort::Fault,
        Lexeme::End => Sort::End,
    }
}

/// The sorts of words.
///
/// # Errors
///
/// `AllocError` if an allocation fails.
pub fn sorts_of(alloc: Global, words: &[Word<'_>]) -> Result<Vec<Sort>, AllocError>
    ensures { IfOk result (λ sorts. sorts.items ≡ sorts_of (map word_view words.now)) }
{
    let mut sorts = Vec::new(alloc);
    for word in words {
        sorts.push(sort_of(word.lexeme))?;
    }
    Ok(sorts)
}
