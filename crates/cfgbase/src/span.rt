//! Spans of a text, and where a value was given.

ghost use Rattle.std.specs.Prelude.{◌≡◌, ◌-◌, ◌≤◌, ◌↔◌, IsTrue, List};
ghost use Rattle.cfgbase.specs.declared.span.Location.TheVariants.{Span as at_span};
ghost use Rattle.cfgbase.specs.declared.span.Span.{Span};
ghost use Rattle.cfgbase.specs.declared.span.SpansKind.{SpansKind};

use std::fmt::Display;

/// A part of a text: the bytes from `start` up to, and not including, `end`.
#[derive(Clone, Copy, Debug, PartialEq, Eq, Hash)]
pub struct Span {
    start: usize,
    end: usize,
}

impl Span {
    /// The span from the byte `start` up to, and not including, the byte `end`.
    pub fn new(start: usize, end: usize) -> Self
        requires { start ≤ end }
        ensures { result ≡ record { start = start; end = end } }
    {
        Span { start, end }
    }

    /// The offset, in bytes, of the span's first byte.
    pub fn start(&self) -> usize
        ensures { result ≡ self.now.start }
    {
        self.start
    }

    /// The offset, in bytes, right after the span.
    pub fn end(&self) -> usize
        ensures { result ≡ self.now.end }
    {
        self.end
    }

    /// How many bytes the span covers.
    pub fn len(&self) -> usize
        ensures { result ≡ self.now.end - self.now.start }
    {
        let Span { start, end } = *self;
        end.saturating_sub(start)
    }

    /// Whether the span covers no byte.
    pub fn is_empty(&self) -> bool
        ensures { IsTrue result ↔ (self.now.end - self.now.start ≡ 0) }
    {
        self.len() == 0
    }
}

/// Where a value was given.
#[derive(Clone, Debug, PartialEq, Eq, Drop)]
pub enum Location {
    /// In a text, at this span.
    Span(Span),
    /// On the command line.
    CommandLine,
    /// Elsewhere, as the caller describes it.
    Other(String),
}

impl From<Span> for Location {
    ghost from_gives = { λ span location. location ≡ at_span span };

    fn from(span: Span) -> Location {
        Location::Span(span)
    }
}

/// What the spans of an error or a warning mean.
#[derive(Clone, Copy, Debug, PartialEq, Eq)]
pub enum SpansKind {
    /// The first is the span of the original, the others are those of its duplicates.
    DuplicationError,
    /// Each is a span of the error.
    Error,
}

/// An error or a warning with the spans of the text that it is about.
pub trait Spanned: Display {
    ghost spans: { Self → List Span };

    ghost spanskind: { Self → SpansKind };

    /// The spans, in order.
    fn spans(&self) -> &[Span]
        ensures { result.now ≡ spans self.now };

    /// What the spans mean.
    fn spanskind(&self) -> SpansKind
        ensures { result ≡ spanskind self.now };
}
