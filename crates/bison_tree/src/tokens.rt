//! Which symbols are tokens.

ghost use Rattle.std.specs.Prelude.{◌≡◌, ◌∷◌, ◌++◌, [], map, IfOk, OnOk};
ghost use Rattle.std.specs.List.{flat_map};
ghost use Rattle.std.specs.String.{string_bytes};
ghost use Rattle.bison_reader.specs.Items.{item_view};
ghost use Rattle.bison_words.specs.Words.{lexeme_view, word_view};
ghost use Rattle.bison_tree.specs.Names.{each_once};
ghost use Rattle.bison_tree.specs.Tokens.{is_built_in, is_token_itself, lexeme_at, span_at, token_itself, token_names};
ghost use Rattle.bison_tree.specs.Tokens.{tokens_in, tokens_of, tokens_of_part};

use crate::aliases::name_at;
use crate::sets::add_name;
use bison_reader::{Item, Part, PartKind};
use bison_words::{Lexeme, Word};
use cfgbase::Span;
use indexmap::IndexSet;
use std::alloc::{AllocError, Global};

/// The lexeme of a word by its number; the end of the text, if there is no such word.
pub fn lexeme_at<'a>(words: &[Word<'a>], word: usize) -> Lexeme<'a>
    ensures { lexeme_view result ≡ lexeme_at (map word_view words.now) word }
{
    match words.get(word) {
        Some(word) => word.lexeme,
        None => Lexeme::End,
    }
}

/// The span of a word by its number; an empty one at 0, if there is no such word.
pub fn span_at(words: &[Word<'_>], word: usize) -> Span
    ensures { result ≡ span_at (map word_view words.now) word }
{
    match words.get(word) {
        Some(word) => word.span,
        None => Span::new(0, 0),
    }
}

/// Whether a token of this name needs no declaration.
pub(crate) fn is_built_in(name: &str) -> bool
    ensures { result ≡ is_built_in name.now }
{
    name == "error" || name == "YYerror" || name == "YYEOF" || name == "YYUNDEF"
}

/// Whether a symbol is a token by itself.
fn is_token_itself(lexeme: Lexeme<'_>) -> bool
    ensures { result ≡ is_token_itself (lexeme_view lexeme.entry) }
{
    match lexeme {
        Lexeme::Identifier(name) => is_built_in(name),
        Lexeme::Literal(_) | Lexeme::String(_) | Lexeme::Translatable(_) => true,
        _ => false,
    }
}

/// Adds a word to a list.
fn push(tokens: &mut Vec<usize>, word: usize) -> Result<(), AllocError>
    ensures { OnOk result (tokens.new.items ≡ tokens.old.items ++ word ∷ []) }
{
    tokens.push(word)?;
    Ok(())
}

/// Adds a word that is a token by itself.
fn push_itself(tokens: &mut Vec<usize>, words: &[Word<'_>], word: usize) -> Result<(), AllocError>
    ensures { OnOk result (tokens.new.items ≡ tokens.old.items ++ token_itself (map word_view words.now) word) }
{
    if is_token_itself(lexeme_at(words, word)) {
        return push(tokens, word);
    }
    Ok(())
}

/// Adds the words of a production's part that are tokens.
fn push_of_part(tokens: &mut Vec<usize>, words: &[Word<'_>], part: Part) -> Result<(), AllocError>
    ensures { OnOk result (tokens.new.items ≡ tokens.old.items ++ tokens_of_part (map word_view words.now) part) }
{
    match part.kind {
        PartKind::Symbol => push_itself(tokens, words, part.word),
        PartKind::Precedence => push(tokens, part.last),
        _ => Ok(()),
    }
}

/// Adds the words of a production that are tokens.
fn push_of_parts(
    tokens: &mut Vec<usize>,
    words: &[Word<'_>],
    parts: &[Part],
) -> Result<(), AllocError>
    ensures { OnOk result (tokens.new.items
        ≡ tokens.old.items ++ flat_map (tokens_of_part (map word_view words.now)) parts.now) }
{
    for part in parts {
        push_of_part(tokens, words, *part)?;
    }
    Ok(())
}

/// Adds the words by which an item says that a symbol is a token.
fn push_of_item(tokens: &mut Vec<usize>, words: &[Word<'_>], item: &Item) -> Result<(), AllocError>
    ensures { OnOk result (tokens.new.items
        ≡ tokens.old.items ++ tokens_in (map word_view words.now) (item_view item.now)) }
{
    match item {
        Item::Token(symbol) | Item::Precedence(_, symbol) => push(tokens, *symbol),
        Item::Alias { string, .. } => push(tokens, *string),
        Item::Rule(symbol) | Item::Symbol(symbol) | Item::Start(symbol) | Item::Head(symbol) =>
            push_itself(tokens, words, *symbol),
        Item::Production(production) => push_of_parts(tokens, words, production.parts.as_slice()),
        _ => Ok(()),
    }
}

/// The words that are tokens.
#[tactic(auto, unfolding(crate::specs::Tokens::tokens_of))]
pub(crate) fn tokens_of(
    alloc: Global,
    words: &[Word<'_>],
    items: &[Item],
) -> Result<Vec<usize>, AllocError>
    ensures { IfOk result (λ tokens. tokens.items ≡ tokens_of (map word_view words.now) (map item_view items.now)) }
{
    let mut tokens = Vec::new(alloc);
    for item in items {
        push_of_item(&mut tokens, words, item)?;
    }
    Ok(tokens)
}

/// The names of tokens, each once, by the words that are tokens.
pub(crate) fn token_names(
    alloc: Global,
    names: &[String],
    tokens: &[usize],
) -> Result<IndexSet<String>, AllocError>
    ensures { IfOk result (λ set. map string_bytes set.keys
        ≡ each_once (token_names (map string_bytes names.now) tokens.now)) }
{
    let mut set = IndexSet::new(alloc);
    for token in tokens {
        add_name(alloc, &mut set, name_at(names, *token))?;
    }
    Ok(set)
}
