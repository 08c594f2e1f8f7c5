//! The line where a span starts, with carets under the span.

ghost use Rattle.std.specs.Prelude.{◌≡◌, ◌-◌, ◌++◌, ◌≤◌, if◌then◌else◌, length, min, OnOk, string_bytes};
ghost use Rattle.std.specs.List.{flat_map, repeat, slice_range};
ghost use Rattle.std.specs.Str.{IsCharBoundary, chars};
ghost use Rattle.cfglines.specs.Lines.{ends_crlf, line_start};
ghost use Rattle.cfgrender.specs.Render.{carets, ceil_char_boundary, excerpt, line_stop, marked_line, shown_line};
ghost use Rattle.cfgrender.specs.Render.{under_dots, under_prefix, under_span};

use crate::visible::{push_visible, shown_width};
use crate::window::window;
use cfgbase::Span;
use cfglines::Positions;
use std::alloc::AllocError;

/// Writes the line where a span starts, and the carets below it.
pub(crate) fn push_excerpt(
    out: &mut String,
    positions: &Positions<'_>,
    span: Span,
) -> Result<(), AllocError>
    requires { IsCharBoundary positions.now span.start }
    ensures { OnOk result (string_bytes out.new ≡ string_bytes out.old ++ excerpt positions.now span) }
{
    let (first, last) = line_bytes(positions, span.start());
    let line = &positions.text()[first..last];
    let start = span.start().min(last) - first;
    let end = span.end().saturating_sub(first);
    push_marked_line(out, line, start, end)
}

/// Where the line of an offset starts, and where it ends without its line end.
pub(crate) fn line_bytes(positions: &Positions<'_>, at: usize) -> (usize, usize)
    requires { at ≤ length positions.now }
    ensures value { result ≡ (line_start positions.now at, line_stop positions.now at) }
    ensures ordered { result.0 ≤ result.1 }
    ensures begins { IsCharBoundary positions.now result.0 }
    ensures ends { IsCharBoundary positions.now result.1 }
    ensures before { result.0 ≤ at }
{
    let (start, end) = positions.span_line_bytes(Span::new(at, at));
    (start, without_line_end(positions.text().as_bytes(), end))
}

/// The offset of a CR right before the LF at `end`, or else `end`.
fn without_line_end(text: &[u8], end: usize) -> usize
    ensures { result ≡ (if ends_crlf text.now end then end - 1 else end) }
{
    match end.checked_sub(1) {
        Some(last) if text.get(last) == Some(&b'\r') && text.get(end) == Some(&b'\n') => last,
        _ => end,
    }
}

/// Writes a line and the carets below it, for a span from `start` up to `end` in it.
#[tactic(auto, unfolding(crate::specs::Render::marked_line))]
fn push_marked_line(
    out: &mut String,
    line: &str,
    start: usize,
    end: usize,
) -> Result<(), AllocError>
    requires { IsCharBoundary line.now start }
    ensures { OnOk result (string_bytes out.new ≡ string_bytes out.old ++ marked_line line.now start end) }
{
    let (first, last) = window(line, start);
    push_shown_line(out, line, first, last)?;
    out.push_str("\n")?;
    let part = shown_span(line, start, end, last);
    push_marks(out, first > 0, &line[first..start], part)?;
    out.push_str("\n")
}

/// Writes what is below a line: under the dots if it is cut, under what it shows before the span, and under the span.
fn push_marks(out: &mut String, cut: bool, prefix: &str, part: &str) -> Result<(), AllocError>
    ensures { OnOk result (string_bytes out.new ≡ string_bytes out.old
        ++ (under_dots cut ++ (flat_map under_prefix (chars prefix.now) ++ carets part.now))) }
{
    if cut {
        out.push_str("   ")?;
    }
    push_under_prefix(out, prefix)?;
    push_carets(out, part)
}

/// Writes the part of a line between two offsets, with dots at each end where the line goes on.
fn push_shown_line(out: &mut String, line: &str, start: usize, end: usize) -> Result<(), AllocError>
    requires ordered { start ≤ end }
    requires begins { IsCharBoundary line.now start }
    requires ends { IsCharBoundary line.now end }
    ensures { OnOk result (string_bytes out.new ≡ string_bytes out.old ++ shown_line line.now start end) }
{
    if start > 0 {
        out.push_str("...")?;
    }
    push_visible(out, &line[start..end])?;
    if end < line.len() {
        out.push_str("...")?;
    }
    Ok(())
}

/// The characters of a line from `start` on that begin before `end` and before the window's end.
fn shown_span(line: &str, start: usize, end: usize, window_end: usize) -> &str
    requires begins { IsCharBoundary line.now start }
    requires ends { IsCharBoundary line.now window_end }
    ensures { result.now ≡ slice_range line.now start (min (ceil_char_boundary line.now end) window_end) }
{
    let stop = line.ceil_char_boundary(end).min(window_end);
    if start < stop { &line[start..stop] } else { "" }
}

/// Writes what is under the line before the span.
fn push_under_prefix(out: &mut String, prefix: &str) -> Result<(), AllocError>
    ensures { OnOk result (string_bytes out.new ≡ string_bytes out.old ++ flat_map under_prefix (chars prefix.now)) }
{
    for c in prefix.chars() {
        push_blank_under(out, c)?;
    }
    Ok(())
}

/// Writes what is under a character before the span.
fn push_blank_under(out: &mut String, c: char) -> Result<(), AllocError>
    ensures { OnOk result (string_bytes out.new ≡ string_bytes out.old ++ under_prefix c) }
{
    if c == '\t' {
        out.push_str("\t")
    } else {
        push_times(out, " ", shown_width(c))
    }
}

/// Writes the carets under this part of the span.
fn push_carets(out: &mut String, part: &str) -> Result<(), AllocError>
    ensures { OnOk result (string_bytes out.new ≡ string_bytes out.old ++ carets part.now) }
{
    if part.is_empty() {
        return out.push_str("^");
    }
    push_under_span(out, part)
}

/// Writes the carets under each character of this part of the span.
fn push_under_span(out: &mut String, part: &str) -> Result<(), AllocError>
    ensures { OnOk result (string_bytes out.new ≡ string_bytes out.old ++ flat_map under_span (chars part.now)) }
{
    for c in part.chars() {
        push_carets_under(out, c)?;
    }
    Ok(())
}

/// Writes the carets under a character of the span.
fn push_carets_under(out: &mut String, c: char) -> Result<(), AllocError>
    ensures { OnOk result (string_bytes out.new ≡ string_bytes out.old ++ under_span c) }
{
    push_times(out, "^", shown_width(c))
}

/// Writes a text this many times.
fn push_times(out: &mut String, text: &str, times: usize) -> Result<(), AllocError>
    ensures { OnOk result (string_bytes out.new ≡ string_bytes out.old ++ repeat times text.now) }
{
    for _ in 0..times {
        out.push_str(text)?;
    }
    Ok(())
}
