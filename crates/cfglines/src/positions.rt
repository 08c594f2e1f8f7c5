//! Lines and columns of one text.

ghost use Rattle.std.specs.Prelude.{◌≡◌, ◌≤◌, length, take, IfOk, SomeIff};
ghost use Rattle.std.specs.List.{count_by, slice_range};
ghost use Rattle.std.specs.Str.{IsCharBoundary};
ghost use Rattle.cfglines.specs.Characters.{AreCountsOf, begins_character};
ghost use Rattle.cfglines.specs.Lines.{character_count, column, line_end, line_number, line_start};

use crate::newlinecache::{FeedError, NewlineCache, ends_crlf};
use cfgbase::Span;
use std::alloc::{AllocError, Global};
use std::marker::Model;

/// How many bytes are between two counts.
const STEP: usize = 256;

/// A text with the offsets of its newlines and, if a line is longer than `STEP` bytes, a count of the characters before
/// each `STEP`th byte. So finding the column of an offset takes no longer than in a short text, however long its line
/// is.
#[derive(Drop)]
pub struct Positions<'a> {
    text: &'a str,
    lines: NewlineCache,
    /// `None` if no line is longer than `STEP` bytes: characters of a short line are counted when they are needed.
    counts: Option<Vec<usize>>,
}

impl<'a> Model for Positions<'a> {
    ghost use Rattle.std.specs.Prelude.{IfSome, List, ℕ};
    ghost use Rattle.std.specs.Str.{IsUtf8};
    ghost use Rattle.cfglines.specs.Characters.{AreCountsOf};
    ghost use Rattle.cfglines.specs.Lines.{StandsFor};

    ghost Value = { List ℕ };

    ghost view = { λ positions. positions.text.now };

    ghost invariant = { λ positions. IsUtf8 positions.text.now × StandsFor positions.lines positions.text.now
        × IfSome positions.counts (λ counts. AreCountsOf positions.text.now counts.items) };
}

impl<'a> Positions<'a> {
    /// The text with its offsets and counts.
    ///
    /// # Errors
    ///
    /// `AllocError` if an allocation fails.
    pub fn new(alloc: Global, text: &'a str) -> Result<Positions<'a>, AllocError>
        ensures { IfOk result (λ positions. positions ≡ text.entry.now) }
    {
        let lines = match NewlineCache::from_str(alloc, text) {
            Ok(lines) => lines,
            Err(FeedError::OutOfMemory) => return Err(AllocError),
            Err(FeedError::TooLong) => unreachable!(),
        };
        let counts = if lines.has_line_longer_than(STEP) {
            Some(counts_of(alloc, text.as_bytes())?)
        } else {
            None
        };
        Ok(Positions {
            text,
            lines,
            counts,
        })
    }

    /// The text.
    pub fn text(&self) -> &'a str
        ensures { result.now ≡ self.now }
    {
        self.text
    }

    /// The number of the byte's line, and the byte's column in characters, both from 1. `None` inside a character, or
    /// beyond the text's end.
    pub fn line_and_column(&self, byte: usize) -> Option<(usize, usize)>
        ensures { SomeIff result (IsCharBoundary self.now byte) (line_number self.now byte, column self.now byte) }
    {
        if !self.text.is_char_boundary(byte) {
            return None;
        }
        let line = self.lines.byte_to_line_num(byte)?;
        Some((line, self.column(byte)))
    }

    /// Where the lines of a span start and end, in bytes: from the start of the line with the span's first byte up to
    /// the first newline at or after the span's end, or up to the text's end.
    pub fn span_line_bytes(&self, span: Span) -> (usize, usize)
        ensures { result ≡ (line_start self.now span.start, line_end self.now span.end) }
    {
        self.lines.span_line_bytes(span)
    }

    /// The column of the byte, which begins a character of the text or is its end.
    #[tactic(auto, unfolding(crate::specs::Lines::column))]
    fn column(&self, byte: usize) -> usize
        requires { IsCharBoundary self.now byte }
        ensures { result ≡ column self.now byte }
    {
        if ends_crlf(self.text.as_bytes(), byte) {
            self.character_count(byte - 1)
        } else {
            self.character_count(byte)
        }
    }

    /// How many characters the byte's line has up to and including the one that the byte begins. The text's end counts
    /// as one.
    fn character_count(&self, byte: usize) -> usize
        requires { IsCharBoundary self.now byte }
        ensures { result ≡ character_count self.now byte }
    {
        let start = self.lines.line_start(byte);
        self.begun_between(start, byte) + 1
    }

    /// How many characters begin at the first byte or after it, but before the second. Most are so close to each other
    /// that their own bytes take less time than those from the last counts on. Only a long line can have others, and
    /// then there are counts.
    fn begun_between(&self, start: usize, end: usize) -> usize
        requires order { start ≤ end }
        requires within { end ≤ length self.now }
        ensures { result ≡ count_by begins_character (slice_range self.now start end) }
    {
        let text = self.text.as_bytes();
        match &self.counts {
            Some(counts) if end - start > STEP => {
                let before = begun_before(text, counts, start);
                begun_before(text, counts, end) - before
            }
            _ => begun_in(&text[start..end]),
        }
    }
}

/// How many characters begin before the byte, by the counts of the text.
fn begun_before(text: &[u8], counts: &[usize], byte: usize) -> usize
    requires counted { AreCountsOf text.now counts.now }
    requires within { byte ≤ length text.now }
    ensures { result ≡ count_by begins_character (take byte text.now) }
{
    let step = byte / STEP;
    counts[step] + begun_in(&text[step * STEP..byte])
}

/// How many characters begin before each `STEP`th byte, and how many the text has.
fn counts_of(alloc: Global, text: &[u8]) -> Result<Vec<usize>, AllocError>
    ensures { IfOk result (λ counts. AreCountsOf text.now counts.items) }
{
    let mut begun = 0;
    let mut counts = Vec::new(alloc);
    counts.push(begun)?;
    for piece in text.chunks(STEP) {
        begun += begun_in(piece);
        counts.push(begun)?;
    }
    Ok(counts)
}

/// How many characters begin in these bytes.
fn begun_in(bytes: &[u8]) -> usize
    ensures { result ≡ count_by begins_character bytes.now }
{
    bytes.iter().filter(|byte| begins_character(**byte)).count()
}

/// Whether the byte begins a character.
pub fn begins_character(byte: u8) -> bool
    ensures { result ≡ begins_character byte }
{
    byte < 0x80 || byte >= 0xc0
}
