//! Which parts of a production are its symbols, its action and its precedence, and where it ends.

ghost use Rattle.std.specs.Prelude.{◌≡◌, ◌++◌, ◌≤◌, map, length, IfOk, OnOk};
ghost use Rattle.bison_words.specs.Words.{word_view};
ghost use Rattle.bison_tree.specs.Productions.{action_of, end_after, ends_code, inner_name, inners_after, is_code};
ghost use Rattle.bison_tree.specs.Productions.{is_followed, is_precedence, is_symbol, pieces_after, precedence_of};
ghost use Rattle.std.specs.String.{string_bytes};

use crate::piece::Piece;
use crate::tokens::span_at;
use bison_reader::{Part, PartKind};
use bison_words::Word;
use std::alloc::{AllocError, Global};
use std::fmt::Write;

/// Whether a part is code: an action or a predicate.
pub fn is_code(kind: PartKind) -> bool
    ensures { result ≡ is_code kind }
{
    matches!(kind, PartKind::Action | PartKind::Predicate)
}

/// Whether a part is a symbol.
pub fn is_symbol(kind: PartKind) -> bool
    ensures { result ≡ is_symbol kind }
{
    matches!(kind, PartKind::Symbol)
}

fn is_precedence(kind: PartKind) -> bool
    ensures { result ≡ is_precedence kind }
{
    matches!(kind, PartKind::Precedence)
}

/// Whether code before this part isn't at the end of its production.
fn ends_code(kind: PartKind) -> bool
    ensures { result ≡ ends_code kind }
{
    matches!(
        kind,
        PartKind::Symbol | PartKind::Action | PartKind::Predicate
    )
}

/// Whether code before these parts isn't at the end of its production.
pub fn is_followed(rest: &[Part]) -> bool
    ensures { result ≡ is_followed rest.now }
{
    rest.iter().any(|part| ends_code(part.kind))
}

/// The symbols of a production. `inners` are the words of the actions inside of productions so far; those of this one
/// are added.
pub(crate) fn pieces_of(
    alloc: Global,
    inners: &mut Vec<usize>,
    parts: &[Part],
) -> Result<Vec<Piece>, AllocError>
    ensures pieces { IfOk result (λ pieces. pieces.items ≡ pieces_after (length inners.old.items) parts.now) }
    ensures counted { OnOk result (length inners.new.items ≡ inners_after (length inners.old.items) parts.now) }
{
    let mut pieces = Vec::new(alloc);
    let mut left = parts;
    while let [part, rest @ ..] = left {
        if is_code(part.kind) && is_followed(rest) {
            inners.push(part.word)?;
            pieces.push(Piece::Inner {
                code: part.word,
                number: inners.len(),
            })?;
        } else if is_symbol(part.kind) {
            pieces.push(Piece::Symbol(part.word))?;
        }
        left = rest;
    }
    Ok(pieces)
}

/// The code's word of the action at the end of a production.
pub(crate) fn action_of(parts: &[Part]) -> Option<usize>
    ensures { result ≡ action_of parts.now }
{
    let mut action = None;
    for part in parts {
        match part.kind {
            PartKind::Symbol | PartKind::Predicate => action = None,
            PartKind::Action => action = Some(part.word),
            _ => {}
        }
    }
    action
}

/// The symbol of the first `%prec`.
pub(crate) fn precedence_of(parts: &[Part]) -> Option<usize>
    ensures { result ≡ precedence_of parts.now }
{
    for part in parts {
        if is_precedence(part.kind) {
            return Some(part.last);
        }
    }
    None
}

/// Where the last of the parts ends, but code at the end; `start` at least.
pub(crate) fn end_of(words: &[Word<'_>], start: usize, parts: &[Part]) -> usize
    ensures ends { result ≡ end_after (map word_view words.now) start parts.now }
    ensures ordered { start ≤ result }
{
    let mut end = start;
    let mut left = parts;
    while let [part, rest @ ..] = left {
        if !is_code(part.kind) || is_followed(rest) {
            end = end.max(span_at(words, part.last).end());
        }
        left = rest;
    }
    end
}

/// The name of an action's rule, by the action's number among those inside of productions.
pub(crate) fn inner_name(alloc: Global, number: usize) -> Result<String, AllocError>
    ensures { IfOk result (λ name. string_bytes name ≡ inner_name number) }
{
    let mut name = String::new(alloc);
    write!(name, "$@{number}")?;
    Ok(name)
}
