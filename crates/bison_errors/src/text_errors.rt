//! What is wrong with the text of a file.

ghost use Rattle.std.specs.Prelude.{◌≡◌, ◌++◌, ◌∷◌, [], map, OnOk};
ghost use Rattle.std.specs.List.{flat_map};
ghost use Rattle.bison_reader.specs.Items.{item_view};
ghost use Rattle.bison_words.specs.Words.{lexeme_view, word_view};
ghost use Rattle.bison_errors.specs.Errors.{empty_error, first_empty, has_symbol, is_empty_mark, is_fault, is_priority};
ghost use Rattle.bison_errors.specs.Errors.{item_errors, none_yet, noted, parts_errors, priority_error, repeat_error};
ghost use Rattle.bison_errors.specs.Errors.{some_or, text_errors, unexpected_error, with_noted, fault_error};

use crate::error::{Error, ErrorKind, Once, push};
use bison_reader::{Item, Part, PartKind};
use bison_tree::{is_code, is_followed, is_symbol, lexeme_at, number_in, span_at};
use bison_words::{Lexeme, Word, WordFault};
use std::alloc::AllocError;

fn is_fault(lexeme: Lexeme<'_>) -> bool
    ensures { result ≡ is_fault (lexeme_view lexeme.entry) }
{
    matches!(lexeme, Lexeme::Fault)
}

fn is_priority(kind: PartKind) -> bool
    ensures { result ≡ is_priority kind }
{
    matches!(kind, PartKind::DynamicPrecedence)
}

fn is_empty_mark(kind: PartKind) -> bool
    ensures { result ≡ is_empty_mark kind }
{
    matches!(kind, PartKind::Empty)
}

fn some_or(first: Option<usize>, word: usize) -> Option<usize>
    ensures { result ≡ some_or first word }
{
    match first {
        Some(first) => Some(first),
        None => Some(word),
    }
}

impl Once {
    fn none() -> Self
        ensures { result ≡ none_yet }
    {
        Once {
            precedence: None,
            empty: None,
            dynamic: None,
        }
    }

    /// The word of the first part of this kind.
    fn noted(self, kind: PartKind) -> Option<usize>
        ensures { result ≡ noted self kind }
    {
        match kind {
            PartKind::Precedence => self.precedence,
            PartKind::Empty => self.empty,
            PartKind::DynamicPrecedence => self.dynamic,
            _ => None,
        }
    }

    /// Notes a part of this kind.
    fn with(self, kind: PartKind, word: usize) -> Self
        ensures { result ≡ with_noted self kind word }
    {
        match kind {
            PartKind::Precedence => Once {
                precedence: some_or(self.precedence, word),
                ..self
            },
            PartKind::Empty => Once {
                empty: some_or(self.empty, word),
                ..self
            },
            PartKind::DynamicPrecedence => Once {
                dynamic: some_or(self.dynamic, word),
                ..self
            },
            _ => self,
        }
    }
}

/// Adds a word that can't be where it is, unless a fault of it was found already.
fn push_unexpected(
    errors: &mut Vec<Error>,
    words: &[Word<'_>],
    word: usize,
    kind: ErrorKind,
) -> Result<(), AllocError>
    ensures { OnOk result (errors.new.items
        ≡ errors.old.items ++ unexpected_error (map word_view words.now) word kind) }
{
    if !is_fault(lexeme_at(words, word)) {
        return push(errors, Error::at(kind, span_at(words, word)));
    }
    Ok(())
}

/// Adds a `%dprec` of 0.
fn push_priority(errors: &mut Vec<Error>, words: &[Word<'_>], part: Part) -> Result<(), AllocError>
    ensures { OnOk result (errors.new.items ≡ errors.old.items ++ priority_error (map word_view words.now) part) }
{
    if is_priority(part.kind) && number_in(lexeme_at(words, part.last)) == 0 {
        return push(
            errors,
            Error::at(ErrorKind::IllegalPriority, span_at(words, part.last)),
        );
    }
    Ok(())
}

/// Adds a part that a production has once at most, if there was one.
fn push_repeat(
    errors: &mut Vec<Error>,
    words: &[Word<'_>],
    first: Option<usize>,
    part: Part,
) -> Result<(), AllocError>
    ensures { OnOk result (errors.new.items ≡ errors.old.items ++ repeat_error (map word_view words.now) first part) }
{
    let Some(first) = first else {
        return Ok(());
    };
    let (span, other) = (span_at(words, part.word), span_at(words, first));
    push(
        errors,
        Error::beside(ErrorKind::RepeatedInProduction, span, other),
    )
}

/// Adds what is wrong with the parts of a production, one by one.
fn push_parts(errors: &mut Vec<Error>, words: &[Word<'_>], parts: &[Part]) -> Result<(), AllocError>
    ensures { OnOk result (errors.new.items
        ≡ errors.old.items ++ parts_errors (map word_view words.now) none_yet parts.now) }
{
    let mut once = Once::none();
    for part in parts {
        push_priority(errors, words, *part)?;
        push_repeat(errors, words, once.noted(part.kind), *part)?;
        once = once.with(part.kind, part.word);
    }
    Ok(())
}

/// Whether a production has a symbol, or an action inside of it.
fn has_symbol(parts: &[Part]) -> bool
    ensures { result ≡ has_symbol parts.now }
{
    let mut left = parts;
    while let [part, rest @ ..] = left {
        if is_symbol(part.kind) || is_code(part.kind) && is_followed(rest) {
            return true;
        }
        left = rest;
    }
    false
}

/// The word of the first `%empty`.
fn first_empty(parts: &[Part]) -> Option<usize>
    ensures { result ≡ first_empty parts.now }
{
    for part in parts {
        if is_empty_mark(part.kind) {
            return Some(part.word);
        }
    }
    None
}

/// Adds the `%empty` of a production that isn't empty.
fn push_empty(errors: &mut Vec<Error>, words: &[Word<'_>], parts: &[Part]) -> Result<(), AllocError>
    ensures { OnOk result (errors.new.items ≡ errors.old.items ++ empty_error (map word_view words.now) parts.now) }
{
    if !has_symbol(parts) {
        return Ok(());
    }
    match first_empty(parts) {
        Some(word) => push(
            errors,
            Error::at(ErrorKind::NonEmptyProduction, span_at(words, word)),
        ),
        None => Ok(()),
    }
}

/// Adds what is wrong with an item.
fn push_item(errors: &mut Vec<Error>, words: &[Word<'_>], item: &Item) -> Result<(), AllocError>
    ensures { OnOk result (errors.new.items
        ≡ errors.old.items ++ item_errors (map word_view words.now) (item_view item.now)) }
{
    match item {
        Item::Unexpected(word, expected) => {
            push_unexpected(errors, words, *word, ErrorKind::Unexpected(*expected))
        }
        Item::Production(production) => {
            push_parts(errors, words, production.parts.as_slice())?;
            push_empty(errors, words, production.parts.as_slice())
        }
        _ => Ok(()),
    }
}

/// Adds what is wrong with items.
fn push_items(errors: &mut Vec<Error>, words: &[Word<'_>], items: &[Item]) -> Result<(), AllocError>
    ensures { OnOk result (errors.new.items
        ≡ errors.old.items ++ flat_map (item_errors (map word_view words.now)) (map item_view items.now)) }
{
    for item in items {
        push_item(errors, words, item)?;
    }
    Ok(())
}

/// Adds what is wrong with words.
fn push_faults(errors: &mut Vec<Error>, faults: &[WordFault]) -> Result<(), AllocError>
    ensures { OnOk result (errors.new.items ≡ errors.old.items ++ map fault_error faults.now) }
{
    for fault in faults {
        push(errors, Error::at(ErrorKind::Word(fault.kind), fault.span))?;
    }
    Ok(())
}

/// Adds what is wrong with the text: first faults in words, and then words that can't be where they are.
pub(crate) fn push_text_errors(
    errors: &mut Vec<Error>,
    words: &[Word<'_>],
    faults: &[WordFault],
    items: &[Item],
) -> Result<(), AllocError>
    ensures { OnOk result (errors.new.items
        ≡ errors.old.items ++ text_errors (map word_view words.now) faults.now (map item_view items.now)) }
{
    push_faults(errors, faults)?;
    push_items(errors, words, items)
}
