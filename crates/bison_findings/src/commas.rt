//! Commas between words.

ghost use Rattle.std.specs.Prelude.{◌≡◌, ◌++◌, ◌<◌, length, map, IfOk, OnOk};
ghost use Rattle.bison_words.specs.Words.{lexeme_view, word_view};
ghost use Rattle.text_findings.specs.Reports.{ReportsBelow};
ghost use Rattle.bison_findings.specs.Commas.{ReportsStrayComma, comma_after, is_mark, stray_comma};

use bison_words::{Lexeme, Word};
use cfgrammar::Span;
use std::alloc::{AllocError, Global};
use text_findings::{Finding, FindingKind, Reporter, after_blanks, push_reported};

/// Adds a finding for each comma that follows a word, maybe after white space.
pub(crate) fn push_stray_commas(
    alloc: Global,
    all: &mut Vec<Finding>,
    text: &str,
    words: &[Word<'_>],
) -> Result<(), AllocError>
    ensures { OnOk result ((reported : _) × ReportsBelow (ReportsStrayComma text.now (map word_view words.now))
        (length (map word_view words.now)) reported × (all.new.items ≡ all.old.items ++ reported)) }
{
    push_reported(alloc, all, &StrayCommas { text, words }, words.len())
}

/// Reports commas that follow words.
#[derive(Drop)]
struct StrayCommas<'a> {
    text: &'a str,
    words: &'a [Word<'a>],
}

impl Reporter for StrayCommas<'_> {
    ghost use Rattle.std.specs.Prelude.{length, map};
    ghost use Rattle.bison_words.specs.Words.{word_view};
    ghost use Rattle.bison_findings.specs.Commas.{ReportsStrayComma};

    ghost count = { λ x. length (map word_view x.words.now) };

    ghost reports = { λ x. ReportsStrayComma x.text.now (map word_view x.words.now) };

    fn report(&self, alloc: Global, number: usize) -> Result<Option<Finding>, AllocError> {
        match self.words.get(number) {
            Some(word) => comma_after(alloc, self.text, *word),
            None => Ok(None),
        }
    }
}

/// The finding about a comma that follows a word.
fn comma_after(alloc: Global, text: &str, word: Word<'_>) -> Result<Option<Finding>, AllocError>
    ensures { IfOk result (λ found. found ≡ comma_after text.now (word_view word.entry)) }
{
    let offset = after_blanks(text, word.span.end());
    match text.as_bytes().get(offset) {
        Some(b',') if !is_mark(word.lexeme) => Ok(Some(stray_comma(alloc, offset)?)),
        _ => Ok(None),
    }
}

/// Whether a word is `%%`: what follows the last one is no word.
fn is_mark(lexeme: Lexeme<'_>) -> bool
    ensures { result ≡ is_mark (lexeme_view lexeme.entry) }
{
    matches!(lexeme, Lexeme::Mark)
}

/// The finding that a comma is at this offset.
fn stray_comma(alloc: Global, offset: usize) -> Result<Finding, AllocError>
    requires { offset < 18446744073709551615 }
    ensures { IfOk result (λ finding. finding ≡ stray_comma offset) }
{
    let text = String::from_str(alloc, "Stray ',': it is read as a blank")?;
    Finding::at(
        alloc,
        FindingKind::StrayComma,
        Span::new(offset, offset + 1),
        text,
    )
}
