//! Where the lines of a text begin.

ghost use Rattle.std.specs.Prelude.{◌≡◌, ◌+◌, ◌^◌, ◌<◌, ◌≤◌, ◌↔◌, ℕ, List, [], IsTrue};
ghost use Rattle.std.specs.Prelude.{◌++◌, map, length, take, Some, IfOk, OnOk, OnErr, IsErrOf, IsOkUnless, SomeIff};
ghost use Rattle.std.specs.Iterator.{Drains, IsFinite};
ghost use Rattle.std.specs.List.{after_last};
ghost use Rattle.std.specs.Str.{IsCharBoundary};
ghost use Rattle.cfglines.specs.declared.newlinecache.FeedError.TheVariants.{OutOfMemory};
ghost use Rattle.cfglines.specs.FeedTexts.{feed_error_text};
ghost use Rattle.cfglines.specs.Lines.{HasNewline, Kept, StandsFor, StopsAt, character_count, column, ends_crlf};
ghost use Rattle.cfglines.specs.Lines.{is_newline, joined, line_end, line_number, line_start, newlines_of};

use cfgbase::Span;
use memchr::memchr_iter;
use std::alloc::{AllocError, Global};
use std::error::Error;
use std::fmt;
use std::marker::Model;

/// Why a text was not fed.
#[derive(Debug, Drop)]
pub enum FeedError {
    /// The whole text would have more bytes than a `usize` can count.
    TooLong,
    /// Out of memory.
    OutOfMemory,
}

impl From<AllocError> for FeedError {
    ghost from_gives = { λ _ error. error ≡ OutOfMemory };

    fn from(_: AllocError) -> FeedError {
        FeedError::OutOfMemory
    }
}

impl fmt::Display for FeedError {
    ghost output = { λ error. Some (feed_error_text error) };

    ghost styled_output = { λ error _. Some (feed_error_text error) };

    fn fmt<W: fmt::Write>(&self, f: &mut fmt::Formatter<W>) -> fmt::Result {
        f.write_str(match self {
            FeedError::TooLong => "the text is too long",
            FeedError::OutOfMemory => "out of memory",
        })
    }
}

impl Error for FeedError {}

/// The lines of a text that is fed in pieces. A cache does not keep the text: it holds how many bytes were fed, and the
/// offsets of the newlines.
#[derive(Drop)]
pub struct NewlineCache {
    len: usize,
    newlines: Vec<usize>,
}

impl Model for NewlineCache {
    ghost Value = { Kept };

    ghost view = { λ cache. record { bytes = cache.len; newlines = cache.newlines.items } };

    ghost invariant = { λ cache. (text : List ℕ)
        × StandsFor (record { bytes = cache.len; newlines = cache.newlines.items }) text };
}

impl NewlineCache {
    /// The cache of the empty text.
    pub fn new(alloc: Global) -> Self
        ensures { StandsFor result [] }
    {
        NewlineCache {
            len: 0,
            newlines: Vec::new(alloc),
        }
    }

    /// The cache of `text`. Only newlines allocate.
    pub fn from_str(alloc: Global, text: &str) -> Result<Self, FeedError>
        ensures ok { IfOk result (λ cache. StandsFor cache text.now) }
        ensures err { IsOkUnless result FeedError.OutOfMemory }
        ensures grows { OnErr result (HasNewline text.now) }
    {
        let mut cache = NewlineCache::new(alloc);
        cache.feed(text)?;
        Ok(cache)
    }

    /// The cache of the concatenated pieces. A text that is too long is refused at the first piece that makes it so.
    /// Only newlines allocate.
    pub fn from_pieces<'a, I: Iterator<Item = &'a str> + Drop>(
        alloc: Global,
        pieces: I,
    ) -> Result<Self, FeedError>
        requires can { I.can_next pieces }
        requires ends { IsFinite (I.remaining pieces) }
        ensures ok { IfOk result (λ cache. (items : _) × Drains I.next_gives pieces items
            × StandsFor cache (joined items) × (length (joined items) ≤ usize.MAX)) }
        ensures too_long { IsErrOf result FeedError.TooLong → StopsAt I.next_gives pieces (λ fed piece.
            (length fed ≤ usize.MAX) × (usize.MAX < length fed + length piece)) }
        ensures grows { IsErrOf result FeedError.OutOfMemory → StopsAt I.next_gives pieces (λ fed piece.
            (length fed + length piece ≤ usize.MAX) × HasNewline piece) }
    {
        let mut cache = NewlineCache::new(alloc);
        for piece in pieces {
            cache.feed(piece)?;
        }
        Ok(cache)
    }

    /// Appends `text` to the fed text. Only newlines allocate.
    pub fn feed(&mut self, text: &str) -> Result<(), FeedError>
        ensures ok { OnOk result ((before : List ℕ) → StandsFor self.old before
            → StandsFor self.new (before ++ text.now)) }
        ensures err { OnErr result (self.new ≡ self.old) }
        ensures too_long { IsErrOf result FeedError.TooLong ↔ (usize.MAX < self.old.bytes + length text.now) }
        ensures grows { IsErrOf result FeedError.OutOfMemory → HasNewline text.now }
    {
        let Some(len) = self.len.checked_add(text.len()) else {
            return Err(FeedError::TooLong);
        };
        add_newlines(&mut self.newlines, self.len, text)?;
        self.len = len;
        Ok(())
    }

    /// The number of the byte's line, from 1, or `None` beyond the text's end.
    pub fn byte_to_line_num(&self, byte: usize) -> Option<usize>
        ensures { (text : List ℕ) → StandsFor self.now text
            → SomeIff result (byte ≤ length text) (line_number text byte) }
    {
        if byte > self.len {
            return None;
        }
        Some(self.newlines_before(byte) + 1)
    }

    /// The offset, in bytes, of the start of the byte's line, or `None` beyond the text's end.
    pub fn byte_to_line_byte(&self, byte: usize) -> Option<usize>
        ensures { (text : List ℕ) → StandsFor self.now text
            → SomeIff result (byte ≤ length text) (line_start text byte) }
    {
        if byte > self.len {
            return None;
        }
        Some(self.line_start(byte))
    }

    /// The number of the byte's line in the fed text `src`, and the byte's column in characters, both from 1. `None`
    /// inside a character, beyond the text's end, or if `src` is not as long as the fed text.
    pub fn byte_to_line_num_and_col_num(&self, src: &str, byte: usize) -> Option<(usize, usize)>
        requires { length src.now ≡ self.now.bytes → StandsFor self.now src.now }
        ensures { SomeIff result (StandsFor self.now src.now × IsCharBoundary src.now byte)
            (line_number src.now byte, column src.now byte) }
    {
        if src.len() != self.len || !src.is_char_boundary(byte) {
            return None;
        }
        Some((self.newlines_before(byte) + 1, column_of(src, byte)))
    }

    /// Where the lines of a span start and end, in bytes: from the start of the line with the span's first byte up to
    /// the first newline at or after the span's end, or up to the text's end.
    pub fn span_line_bytes(&self, span: Span) -> (usize, usize)
        ensures { (text : List ℕ) → StandsFor self.now text
            → result ≡ (line_start text span.start, line_end text span.end) }
    {
        let after = self.newlines_before(span.end());
        let end = self.newlines.get(after).copied().unwrap_or(self.len);
        (self.line_start(span.start()), end)
    }

    /// How many newlines precede the byte.
    fn newlines_before(&self, byte: usize) -> usize
        ensures value { (text : List ℕ) → StandsFor self.now text
            → result ≡ length (newlines_of (take byte text)) }
        ensures bound { result ≤ length self.now.newlines }
        ensures small { result < 2 ^ 63 }
    {
        self.newlines.partition_point(|offset| *offset < byte)
    }

    /// The start of the byte's line, or of the last line beyond the text's end.
    pub(crate) fn line_start(&self, byte: usize) -> usize
        ensures { (text : List ℕ) → StandsFor self.now text → result ≡ line_start text byte }
    {
        match self.newlines_before(byte).checked_sub(1) {
            Some(last) => self.newlines[last] + 1,
            None => 0,
        }
    }

    /// Whether some line has more than this many bytes, its newline not counted.
    pub(crate) fn has_line_longer_than(&self, bytes: usize) -> bool
        ensures { (text : List ℕ) → StandsFor self.now text
            → (IsTrue result ↔ ((byte : ℕ) × (byte ≤ length text) × (line_start text byte + bytes < byte))) }
    {
        let end = self.len;
        let mut start = 0;
        // No line ends before its start: nothing saturates, and no proof of that is needed.
        for newline in &self.newlines {
            if newline.saturating_sub(start) > bytes {
                return true;
            }
            start = *newline + 1;
        }
        end.saturating_sub(start) > bytes
    }
}

/// Adds the offsets of the text's newlines, if the text begins at `start`.
fn add_newlines(newlines: &mut Vec<usize>, start: usize, text: &str) -> Result<(), AllocError>
    requires { start + length text.now ≤ usize.MAX }
    ensures ok { OnOk result (newlines.new.items
        ≡ newlines.old.items ++ map (λ offset. start + offset) (newlines_of text.now)) }
    ensures err { OnErr result (newlines.new.items ≡ newlines.old.items) }
    ensures grows { OnErr result (HasNewline text.now) }
{
    let known = newlines.len();
    for offset in memchr_iter(b'\n', text.as_bytes()) {
        if let Err(refused) = newlines.push(start + offset) {
            newlines.truncate(known);
            return Err(AllocError::from(refused));
        }
    }
    Ok(())
}

/// The column of the byte, which begins a character of `text` or is its end.
#[tactic(auto, unfolding(crate::specs::Lines::column))]
fn column_of(text: &str, byte: usize) -> usize
    requires { IsCharBoundary text.now byte }
    ensures { result ≡ column text.now byte }
{
    if ends_crlf(text.as_bytes(), byte) {
        character_count(text, byte - 1)
    } else {
        character_count(text, byte)
    }
}

/// How many characters the byte's line has up to and including the one that the byte begins. The text's end counts as
/// one.
fn character_count(text: &str, byte: usize) -> usize
    requires { IsCharBoundary text.now byte }
    ensures { result ≡ character_count text.now byte }
{
    last_line(&text[..byte]).chars().count() + 1
}

/// Whether the byte is an LF right after a CR.
pub(crate) fn ends_crlf(text: &[u8], byte: usize) -> bool
    ensures { result ≡ ends_crlf text.now byte }
{
    byte > 0 && text.get(byte) == Some(&b'\n') && text.get(byte - 1) == Some(&b'\r')
}

/// What follows the last newline.
fn last_line(text: &str) -> &str
    ensures { result.now ≡ after_last is_newline text.now }
{
    match text.rsplit_once('\n') {
        Some((_, line)) => line,
        None => text,
    }
}
