//! A text with its name, and what is printed about its spans.

ghost use Rattle.std.specs.Prelude.{◌≡◌, ◌++◌, ℕ, List, codes, string_bytes, IfOk, IfSome, OnOk};
ghost use Rattle.std.specs.List.{flat_map};
ghost use Rattle.cfgrender.specs.Render.{heading, message_line, note_line, rendered_in, reported, reported_also};
ghost use Rattle.cfgrender.specs.declared.column_unit.ColumnUnit.TheVariants.{Characters};

use crate::column_unit::ColumnUnit;
use crate::excerpt::push_excerpt;
use crate::visible::{Visible, push_visible};
use cfgbase::{Span, Spanned, SpansKind};
use cfglines::Positions;
use std::alloc::{AllocError, Global};

/// A text with its name and the offsets of its lines, which are found once for all that is written about it.
#[derive(Drop)]
pub struct Source<'a> {
    name: &'a str,
    text: Positions<'a>,
    unit: ColumnUnit,
}

impl<'a> Source<'a> {
    /// A text of this name. Columns count characters.
    ///
    /// # Errors
    ///
    /// `AllocError` if an allocation fails.
    pub fn new(alloc: Global, name: &'a str, text: &'a str) -> Result<Source<'a>, AllocError>
        ensures name { IfOk result (λ source. source.name.now ≡ name.entry.now) }
        ensures text { IfOk result (λ source. source.text ≡ text.entry.now) }
        ensures unit { IfOk result (λ source. source.unit ≡ Characters) }
    {
        Source::with_columns(alloc, name, text, ColumnUnit::Characters)
    }

    /// A text of this name, with columns in this unit.
    ///
    /// # Errors
    ///
    /// `AllocError` if an allocation fails.
    pub fn with_columns(
        alloc: Global,
        name: &'a str,
        text: &'a str,
        unit: ColumnUnit,
    ) -> Result<Source<'a>, AllocError>
        ensures name { IfOk result (λ source. source.name.now ≡ name.entry.now) }
        ensures text { IfOk result (λ source. source.text ≡ text.entry.now) }
        ensures unit { IfOk result (λ source. source.unit ≡ unit) }
    {
        let text = Positions::new(alloc, text)?;
        Ok(Source { name, text, unit })
    }

    /// Writes an error or a warning as [`render`](crate::render) does.
    ///
    /// # Errors
    ///
    /// `AllocError` if an allocation fails.
    pub fn push<E: Spanned>(
        &self,
        alloc: Global,
        out: &mut String,
        error: &E,
    ) -> Result<(), AllocError>
        ensures { OnOk result ((message : List ℕ) × IfSome (E.output error.now) (λ printed. message ≡ printed)
            × (string_bytes out.new ≡ string_bytes out.old
            ++ rendered_in self.now.unit self.now.name.now self.now.text message
            (E.spans error.now) (E.spanskind error.now))) }
    {
        let message = error.to_string(alloc)?;
        self.push_rendered(out, &message, error.spans(), error.spanskind())
    }

    /// Writes a note at an offset of the text, with its line and column but without that line of the text. An offset
    /// that isn't a character boundary has neither.
    ///
    /// # Errors
    ///
    /// `AllocError` if an allocation fails.
    #[tactic(auto, unfolding(crate::specs::Render::note_line))]
    pub fn push_note(&self, out: &mut String, words: &str, offset: usize) -> Result<(), AllocError>
        ensures { OnOk result (string_bytes out.new
            ≡ string_bytes out.old ++ note_line self.now.unit self.now.name.now self.now.text words.now offset) }
    {
        self.push_heading(out, offset)?;
        out.push_str("note: ")?;
        push_line(out, words)
    }

    /// Writes an error or a warning with this message, these spans, and spans of this kind.
    fn push_rendered(
        &self,
        out: &mut String,
        message: &str,
        spans: &[Span],
        kind: SpansKind,
    ) -> Result<(), AllocError>
        ensures { OnOk result (string_bytes out.new ≡ string_bytes out.old
            ++ rendered_in self.now.unit self.now.name.now self.now.text message.now spans.now kind) }
    {
        let [first, others @ ..] = spans else {
            write!(out, "{}: ", Visible(self.name))?;
            return push_line(out, message);
        };
        self.push_reported(out, message, *first)?;
        self.push_reported_also(out, kind, others)
    }

    /// Writes where the spans after the first one are, if they are duplicates'.
    fn push_reported_also(
        &self,
        out: &mut String,
        kind: SpansKind,
        spans: &[Span],
    ) -> Result<(), AllocError>
        ensures { OnOk result (string_bytes out.new
            ≡ string_bytes out.old ++ reported_also self.now.unit kind self.now.name.now self.now.text spans.now) }
    {
        match kind {
            SpansKind::DuplicationError => self.push_each(out, spans),
            SpansKind::Error => Ok(()),
        }
    }

    /// Writes where each of the spans is.
    fn push_each(&self, out: &mut String, spans: &[Span]) -> Result<(), AllocError>
        ensures { OnOk result (string_bytes out.new
            ≡ string_bytes out.old
            ++ flat_map (reported self.now.unit self.now.name.now self.now.text (codes "note: also here")) spans.now) }
    {
        for span in spans {
            self.push_reported(out, "note: also here", *span)?;
        }
        Ok(())
    }

    /// Writes this message at a span, and the excerpt if the span starts at a character boundary.
    fn push_reported(&self, out: &mut String, words: &str, span: Span) -> Result<(), AllocError>
        ensures { OnOk result (string_bytes out.new
            ≡ string_bytes out.old ++ reported self.now.unit self.now.name.now self.now.text words.now span) }
    {
        self.push_heading(out, span.start())?;
        push_line(out, words)?;
        if self.text.text().is_char_boundary(span.start()) {
            push_excerpt(out, &self.text, span)
        } else {
            Ok(())
        }
    }

    /// Writes the name, and the line and the column of an offset if it is a character boundary.
    fn push_heading(&self, out: &mut String, offset: usize) -> Result<(), AllocError>
        ensures { OnOk result (string_bytes out.new
            ≡ string_bytes out.old ++ heading self.now.unit self.now.name.now self.now.text offset) }
    {
        let name = Visible(self.name);
        match self.unit.line_and_column(&self.text, offset) {
            Some((line, column)) => write!(out, "{name}:{line}:{column}: "),
            None => write!(out, "{name}: "),
        }
    }
}

/// Writes a message as it is shown, and the end of its line.
fn push_line(out: &mut String, message: &str) -> Result<(), AllocError>
    ensures { OnOk result (string_bytes out.new ≡ string_bytes out.old ++ message_line message.now) }
{
    push_visible(out, message)?;
    out.push_str("\n")
}
