//! The names that words have by themselves.

ghost use Rattle.std.specs.Prelude.{◌≡◌, [], map, encode_utf8, option_map, IfOk, OnOk};
ghost use Rattle.std.specs.String.{string_bytes};
ghost use Rattle.bison_words.specs.Words.{lexeme_view, word_view};
ghost use Rattle.bison_tree.specs.Names.{character_name, each_once, in_quotes, letter_in, letters_of, own_name};
ghost use Rattle.bison_tree.specs.Names.{own_names};
ghost use Rattle.cfgitems.specs.Building.{has_name};

use crate::sets::{add_name, has_name};
use bison_words::{Lexeme, Word};
use indexmap::IndexSet;
use std::alloc::{AllocError, Global};

/// A text between quotes.
fn in_quotes(alloc: Global, quote: &str, text: &str) -> Result<String, AllocError>
    ensures { IfOk result (λ quoted. string_bytes quoted ≡ in_quotes quote.now text.now) }
{
    let mut quoted = String::from_str(alloc, quote)?;
    quoted.push_str(text)?;
    quoted.push_str(quote)?;
    Ok(quoted)
}

/// The name of an identifier of one byte.
fn letter_in<'a>(lexeme: Lexeme<'a>) -> Option<&'a str>
    ensures { option_map (λ name. name.now) result ≡ letter_in (lexeme_view lexeme.entry) }
{
    match lexeme {
        Lexeme::Identifier(name) if name.len() == 1 => Some(name),
        _ => None,
    }
}

/// The identifiers of one byte among words.
fn letters_of(alloc: Global, words: &[Word<'_>]) -> Result<IndexSet<String>, AllocError>
    ensures { IfOk result (λ letters. map string_bytes letters.keys
        ≡ each_once (letters_of (map word_view words.now))) }
{
    let mut letters = IndexSet::new(alloc);
    for word in words {
        if let Some(letter) = letter_in(word.lexeme) {
            add_name(alloc, &mut letters, letter)?;
        }
    }
    Ok(letters)
}

/// The name of a character.
fn character_name(
    alloc: Global,
    letters: &IndexSet<String>,
    character: u8,
) -> Result<String, AllocError>
    ensures { IfOk result (λ name. string_bytes name
        ≡ character_name (λ name. has_name name (map string_bytes letters.now.keys)) (encode_utf8 character)) }
{
    let mut name = String::new(alloc);
    name.push(char::from(character))?;
    if has_name(letters, name.as_str()) {
        in_quotes(alloc, "'", name.as_str())
    } else {
        Ok(name)
    }
}

/// The name that a word has by itself.
fn own_name(
    alloc: Global,
    letters: &IndexSet<String>,
    lexeme: Lexeme<'_>,
) -> Result<String, AllocError>
    ensures { IfOk result (λ name. string_bytes name
        ≡ own_name (λ name. has_name name (map string_bytes letters.now.keys)) (lexeme_view lexeme.entry)) }
{
    match lexeme {
        Lexeme::Identifier(name) => String::from_str(alloc, name),
        Lexeme::Literal(character) => character_name(alloc, letters, character),
        Lexeme::String(text) | Lexeme::Translatable(text) => in_quotes(alloc, "\"", text),
        _ => Ok(String::new(alloc)),
    }
}

/// The name that each word has by itself.
fn named(
    alloc: Global,
    letters: &IndexSet<String>,
    words: &[Word<'_>],
) -> Result<Vec<String>, AllocError>
    ensures { IfOk result (λ names. map string_bytes names.items
        ≡ map (λ word. own_name (λ name. has_name name (map string_bytes letters.now.keys)) word.lexeme)
        (map word_view words.now)) }
{
    let mut names = Vec::new(alloc);
    for word in words {
        names.push(own_name(alloc, letters, word.lexeme)?)?;
    }
    Ok(names)
}

/// The name that each word has by itself.
pub(crate) fn own_names(alloc: Global, words: &[Word<'_>]) -> Result<Vec<String>, AllocError>
    ensures { IfOk result (λ names. map string_bytes names.items ≡ own_names (map word_view words.now)) }
{
    let letters = letters_of(alloc, words)?;
    named(alloc, &letters, words)
}
