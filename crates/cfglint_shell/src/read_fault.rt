//! Files that can't be read as text.

ghost use Rattle.std.specs.Prelude.{◌≡◌, ◌++◌, None, true, false, IfOk, IsUtf8, OnOk, length, string_bytes};
ghost use Rattle.std.specs.Str.{IsValidUpTo};
ghost use Rattle.cfgrammar.specs.Lines.{line_number};
ghost use Rattle.cfgrammar.specs.Render.{column_in};
ghost use Rattle.cfglint_shell.specs.ReadFaults.{fault_line, fault_lines, invalid_encoding, reason_text};
ghost use Rattle.cfglint_shell.specs.ReadFaults.{unreadable_file};

use crate::format::Format;
use cfgjson::{Diagnostic, push_annotation, push_line, push_result};
use cfgprogram::ReadError;
use cfgrammar::{ColumnUnit, Positions, Span, Visible};
use std::alloc::{AllocError, Global};
use std::marker::Model;

/// Why a file can't be read as text: its beginning that is text, the word of the reason, and what is said of it.
#[derive(Drop)]
pub(crate) struct ReadFault<'a> {
    text: &'a str,
    kind: &'static str,
    message: String,
}

impl<'a> Model for ReadFault<'a> {
    ghost use Rattle.std.specs.Prelude.{string_bytes};
    ghost use Rattle.cfglint_shell.specs.ReadFaults as faults;

    ghost Value = { faults.ReadFault };

    ghost view = { λ x. record { text = x.text.now; kind = x.kind.now; message = string_bytes x.message } };
}

impl<'a> ReadFault<'a> {
    /// A file can't be read, for this reason.
    pub(crate) fn unreadable(alloc: Global, reason: ReadError) -> Result<Self, AllocError>
        ensures { IfOk result (λ fault. fault ≡ unreadable_file reason) }
    {
        let reason = reason_text(reason);
        Ok(ReadFault {
            text: "",
            kind: "unreadable-file",
            message: format!(in alloc; "Unreadable file{reason}")?,
        })
    }

    /// The bytes of a file are UTF-8 up to here alone.
    pub(crate) fn invalid(alloc: Global, bytes: &'a [u8], valid: usize) -> Result<Self, AllocError>
        requires { IsValidUpTo bytes.now valid }
        ensures { IfOk result (λ fault. fault ≡ invalid_encoding bytes.entry.now valid) }
    {
        let byte = bytes[valid];
        Ok(ReadFault {
            text: text_of(&bytes[..valid]),
            kind: "invalid-encoding",
            message: format!(in alloc; "Not UTF-8: found the byte 0x{byte:02X}")?,
        })
    }

    /// Where its text has which lines.
    pub(crate) fn positions(&self, alloc: Global) -> Result<Positions<'a>, AllocError>
        ensures { IfOk result (λ positions. positions ≡ self.now.text) }
    {
        Positions::new(alloc, self.text)
    }

    /// Writes the line that says so of a file of this name, with its column in this unit.
    pub(crate) fn push_line(
        &self,
        out: &mut String,
        unit: ColumnUnit,
        name: &str,
        positions: &Positions<'_>,
    ) -> Result<(), AllocError>
        requires { positions.now ≡ self.now.text }
        ensures { OnOk result (string_bytes out.new ≡ string_bytes out.old ++ fault_line unit name.now self.now) }
    {
        let name = Visible(name);
        let (line, column) = end_of(unit, positions);
        writeln!(
            out,
            "{name}:{line}:{column}: error: {} [{}]",
            self.message, self.kind
        )
    }

    /// Writes what the format has of it among the lines for texts: for programs a line, as for other errors.
    pub(crate) fn push_reported(
        &self,
        alloc: Global,
        out: &mut String,
        format: Format,
        name: &str,
        positions: &Positions<'_>,
    ) -> Result<(), AllocError>
        requires { positions.now ≡ self.now.text }
        ensures { OnOk result (string_bytes out.new
            ≡ string_bytes out.old ++ fault_lines format name.now self.now) }
    {
        let end = self.text.len();
        let spans = [Span::new(end, end)];
        let shown = error_at(self.kind, &self.message, &spans);
        match format {
            Format::Text => Ok(()),
            Format::Json => push_line(alloc, out, name, positions, &shown),
            Format::Github => push_annotation(out, name, positions, &shown),
            Format::Sarif => push_result(alloc, out, name, positions, &shown),
        }
    }
}

/// An error with this word and this text, without a note.
fn error_at<'a>(kind: &'a str, text: &'a str, spans: &'a [Span]) -> Diagnostic<'a>
    ensures { result ≡ record {
      is_error = true;
      kind = kind.now;
      text = text.now;
      hint = None;
      spans = spans.now;
      has_symbols = false;
    } }
{
    Diagnostic {
        is_error: true,
        kind,
        text,
        hint: None,
        spans,
        has_symbols: false,
    }
}

/// The text that bytes are.
fn text_of(bytes: &[u8]) -> &str
    requires { IsUtf8 bytes.now }
    ensures { result.now ≡ bytes.now }
{
    match std::str::from_utf8(bytes) {
        Ok(text) => text,
        Err(_) => unreachable!(),
    }
}

/// The line of a text's end, and its column in this unit.
fn end_of(unit: ColumnUnit, positions: &Positions<'_>) -> (usize, u128)
    ensures { result ≡ (
      line_number positions.now (length positions.now),
      column_in unit positions.now (length positions.now),
    ) }
{
    match unit.line_and_column(positions, positions.text().len()) {
        Some(end) => end,
        None => unreachable!(),
    }
}

/// Why a file could not be read, if that is known.
fn reason_text(reason: ReadError) -> &'static str
    ensures { result.now ≡ reason_text reason }
{
    match reason {
        ReadError::NotFound => ": it is not there",
        ReadError::IsADirectory => ": it is a directory",
        ReadError::PermissionDenied => ": permission denied",
        ReadError::Other => "",
    }
}
