//! Aliases that a token has already.

ghost use Rattle.std.specs.Prelude.{◌≡◌, ◌++◌, false, map, option_map, IfOk, OnOk, Some};
ghost use Rattle.bison_words.specs.Words.{lexeme_view, word_view};
ghost use Rattle.bison_findings.specs.Aliases.{alias_in, is_listed_after, known_with, repeated_after};
ghost use Rattle.bison_findings.specs.Aliases.{repeated_alias, repeated_aliases, repeats, string_in};
ghost use Rattle.bison_findings.specs.Defines.{is_among};

use bison_words::{Directive, Lexeme, Word};
use cfgrammar::Span;
use indexmap::IndexSet;
use std::alloc::{AllocError, Global};
use text_findings::{Finding, FindingKind};

/// Adds a finding for each string in a list of `%token` that such a list has before.
pub(crate) fn push_repeated_aliases(
    alloc: Global,
    all: &mut Vec<Finding>,
    words: &[Word<'_>],
) -> Result<(), AllocError>
    ensures { OnOk result (all.new.items ≡ all.old.items ++ repeated_aliases (map word_view words.now)) }
{
    let mut known = IndexSet::new(alloc);
    push_among(alloc, all, &mut known, words)
}

/// Adds those among words that begin outside of such a list, where these aliases are known.
fn push_among<'a>(
    alloc: Global,
    all: &mut Vec<Finding>,
    known: &mut IndexSet<&'a str>,
    words: &[Word<'a>],
) -> Result<(), AllocError>
    ensures { OnOk result (all.new.items ≡ all.old.items
        ++ repeated_after false (map (λ name. name.now) known.old.keys) (map word_view words.now)) }
{
    let mut is_listed = false;
    for word in words {
        if let Some(name) = alias_in(is_listed, word.lexeme) {
            push_repeat(alloc, all, known, name, word.span)?;
        }
        is_listed = is_listed_after(is_listed, word.lexeme);
    }
    Ok(())
}

/// Whether the words after a word are in a list of `%token`, if the word itself is or isn't.
fn is_listed_after(is_listed: bool, lexeme: Lexeme<'_>) -> bool
    ensures { result ≡ is_listed_after is_listed (lexeme_view lexeme.entry) }
{
    match lexeme {
        Lexeme::Directive(Directive::Token | Directive::Term) => true,
        Lexeme::Directive(_) | Lexeme::Semicolon | Lexeme::Mark => false,
        _ => is_listed,
    }
}

/// The alias that a word is, if it is in a list of `%token`.
fn alias_in<'a>(is_listed: bool, lexeme: Lexeme<'a>) -> Option<&'a str>
    ensures { option_map (λ name. name.now) result ≡ alias_in is_listed (lexeme_view lexeme.entry) }
{
    match lexeme {
        Lexeme::String(name) | Lexeme::Translatable(name) if is_listed => Some(name),
        _ => None,
    }
}

/// Whether an alias is known. From now on it is.
fn is_known<'a>(known: &mut IndexSet<&'a str>, name: &'a str) -> Result<bool, AllocError>
    ensures was { IfOk result (λ was. was ≡ is_among (map (λ name. name.now) known.old.keys) name.now) }
    ensures known { OnOk result (map (λ name. name.now) known.new.keys
        ≡ known_with (map (λ name. name.now) known.old.keys) (Some name.now)) }
{
    Ok(!known.insert(name)?)
}

/// Adds the finding about an alias that is known, or else makes it known.
fn push_repeat<'a>(
    alloc: Global,
    all: &mut Vec<Finding>,
    known: &mut IndexSet<&'a str>,
    name: &'a str,
    span: Span,
) -> Result<(), AllocError>
    ensures told { OnOk result (all.new.items ≡ all.old.items
        ++ repeats (map (λ name. name.now) known.old.keys) (Some name.now) span) }
    ensures known { OnOk result (map (λ name. name.now) known.new.keys
        ≡ known_with (map (λ name. name.now) known.old.keys) (Some name.now)) }
{
    if !is_known(known, name)? {
        return Ok(());
    }
    Ok(all.push(repeated_alias(alloc, name, span)?)?)
}

/// The finding that a token has the alias at this span already.
fn repeated_alias(alloc: Global, name: &str, span: Span) -> Result<Finding, AllocError>
    ensures { IfOk result (λ finding. finding ≡ repeated_alias name.now span) }
{
    let text = format!(in alloc; "Repeated alias \"{name}\": a token has it already")?;
    Finding::at(alloc, FindingKind::RepeatedAlias, span, text)
}
