//! Errors and findings as people read them, but for their notes.

ghost use Rattle.std.specs.Prelude.{◌≡◌, [], ◌++◌, true, false, IfOk, OnOk, length, string_bytes};
ghost use Rattle.cfgrammar.specs.Render.{heading};
ghost use Rattle.cfglint.specs.Severities.{place, printed};

use crate::severities::severity;
use cfgrammar::{Source, Span, Spanned, SpansKind};
use std::alloc::{AllocError, Global};
use std::fmt;

/// What an error or a finding says, and where it is.
#[derive(Clone, Copy)]
pub(crate) struct Message<'a> {
    pub(crate) is_error: bool,
    pub(crate) text: &'a str,
    pub(crate) spans: &'a [Span],
    pub(crate) spanskind: SpansKind,
}

impl fmt::Display for Message<'_> {
    ghost use Rattle.std.specs.Prelude.{Some, codes, false, ◌++◌};
    ghost use Rattle.cfglint.specs.Severities.{severity};

    ghost output = { λ x. Some (severity false x.is_error ++ (codes " " ++ x.text.now)) };

    fn fmt<W: fmt::Write>(&self, f: &mut fmt::Formatter<W>) -> fmt::Result {
        write!(f, "{} {}", severity(false, self.is_error), self.text)
    }
}

impl Spanned for Message<'_> {
    ghost spans = { λ x. x.spans.now };

    ghost spanskind = { λ x. x.spanskind };

    fn spans(&self) -> &[Span] {
        self.spans
    }

    fn spanskind(&self) -> SpansKind {
        self.spanskind
    }
}

impl Message<'_> {
    /// Writes it as people read it, with its severity in a colour or not.
    pub(crate) fn push(
        &self,
        alloc: Global,
        lines: &mut String,
        source: &Source<'_>,
        colors: bool,
    ) -> Result<(), AllocError>
        ensures { OnOk result (string_bytes lines.new ≡ string_bytes lines.old
            ++ printed source.now.unit colors source.now.name.now source.now.text
            self.now.is_error self.now.text.now self.now.spans.now self.now.spanskind) }
    {
        if colors {
            self.push_colored(alloc, lines, source)
        } else {
            self.push_plain(alloc, lines, source)
        }
    }

    /// Writes it without colours.
    fn push_plain(
        &self,
        alloc: Global,
        lines: &mut String,
        source: &Source<'_>,
    ) -> Result<(), AllocError>
        ensures { OnOk result (string_bytes lines.new ≡ string_bytes lines.old
            ++ printed source.now.unit false source.now.name.now source.now.text
            self.now.is_error self.now.text.now self.now.spans.now self.now.spanskind) }
    {
        source.push(alloc, lines, self)
    }

    /// Writes it with its severity in a colour. What a text says would be escaped, so the severity is replaced.
    fn push_colored(
        &self,
        alloc: Global,
        lines: &mut String,
        source: &Source<'_>,
    ) -> Result<(), AllocError>
        ensures { OnOk result (string_bytes lines.new ≡ string_bytes lines.old
            ++ printed source.now.unit true source.now.name.now source.now.text
            self.now.is_error self.now.text.now self.now.spans.now self.now.spanskind) }
    {
        let mut own = String::new(alloc);
        self.push_plain(alloc, &mut own, source)?;
        let start = place_len(alloc, source, self.spans)?;
        let end = start + severity(false, self.is_error).len();
        own.replace_range(start..end, severity(true, self.is_error))?;
        lines.push_str(&own)
    }
}

/// How many bytes come before the severity of what is at these spans.
fn place_len(alloc: Global, source: &Source<'_>, spans: &[Span]) -> Result<usize, AllocError>
    ensures { IfOk result (λ len. len ≡ length (place source.now.unit source.now.name.now source.now.text spans.now)) }
{
    match spans {
        [] => name_len(alloc, source),
        [first, ..] => heading_len(alloc, source, first.start()),
    }
}

/// How many bytes come before the severity of what has no span.
fn name_len(alloc: Global, source: &Source<'_>) -> Result<usize, AllocError>
    ensures { IfOk result (λ len. len ≡ length (place source.now.unit source.now.name.now source.now.text [])) }
{
    let empty = Message {
        is_error: true,
        text: "",
        spans: &[],
        spanskind: SpansKind::Error,
    };
    let mut line = String::new(alloc);
    empty.push_plain(alloc, &mut line, source)?;
    Ok(line.len() - "error: \n".len())
}

/// How many bytes come before the severity of what is at this offset: as many as before an empty note there.
fn heading_len(alloc: Global, source: &Source<'_>, offset: usize) -> Result<usize, AllocError>
    ensures { IfOk result (λ len. len
        ≡ length (heading source.now.unit source.now.name.now source.now.text offset)) }
{
    let mut line = String::new(alloc);
    source.push_note(&mut line, "", offset)?;
    Ok(line.len() - "note: \n".len())
}
