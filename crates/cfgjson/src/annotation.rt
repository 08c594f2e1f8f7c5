//! An error or a warning as an annotation of GitHub.

ghost use Rattle.std.specs.Prelude.{◌≡◌, ◌++◌, OnOk, codes, string_bytes};
ghost use Rattle.std.specs.List.{flat_map};
ghost use Rattle.std.specs.Option.{option_map};
ghost use Rattle.std.specs.Str.{chars};
ghost use Rattle.cfgjson.specs.Annotations.{annotation, note_text, place_properties, position_properties};
ghost use Rattle.cfgjson.specs.Inner.{escaped_for, opening, rest_of_properties};

use crate::diagnostic::Diagnostic;
use cfgbase::Span;
use cfglines::Positions;
use std::alloc::AllocError;

/// Writes an error or a warning about the text of a file of this name as an annotation of GitHub: a workflow command
/// with the place of its first span, on a line.
///
/// # Errors
///
/// `AllocError` if an allocation fails.
#[tactic(auto, unfolding(crate::specs::Annotations::annotation))]
pub fn push_annotation(
    out: &mut String,
    name: &str,
    positions: &Positions<'_>,
    diagnostic: &Diagnostic<'_>,
) -> Result<(), AllocError>
    ensures { OnOk result (string_bytes out.new
        ≡ string_bytes out.old ++ annotation name.now positions.now diagnostic.now) }
{
    out.push_str(opening(diagnostic.is_error))?;
    push_properties(out, name, positions, diagnostic)?;
    out.push_str("::")?;
    push_escaped(out, diagnostic.text, false)?;
    push_end(out, diagnostic.hint)
}

/// How an annotation begins, up to the name of the file.
fn opening(is_error: bool) -> &'static str
    ensures { result.now ≡ opening is_error }
{
    if is_error {
        "::error file="
    } else {
        "::warning file="
    }
}

/// Writes the properties of an error or a warning, after the name of the first.
fn push_properties(
    out: &mut String,
    name: &str,
    positions: &Positions<'_>,
    diagnostic: &Diagnostic<'_>,
) -> Result<(), AllocError>
    ensures { OnOk result (string_bytes out.new
        ≡ string_bytes out.old ++ rest_of_properties name.now positions.now diagnostic.now) }
{
    push_escaped(out, name, true)?;
    push_place(out, positions, diagnostic.spans)?;
    out.push_str(",title=")?;
    push_escaped(out, diagnostic.kind, true)
}

/// Writes where the first of the spans is, if there are any.
fn push_place(out: &mut String, positions: &Positions<'_>, spans: &[Span]) -> Result<(), AllocError>
    ensures { OnOk result (string_bytes out.new ≡ string_bytes out.old ++ place_properties positions.now spans.now) }
{
    let [span, ..] = spans else {
        return Ok(());
    };
    push_position(out, positions, span.start(), ",line=", ",col=")?;
    push_position(out, positions, span.end(), ",endLine=", ",endColumn=")
}

/// Writes these properties of a byte, if it is at a character boundary: its line and its column.
fn push_position(
    out: &mut String,
    positions: &Positions<'_>,
    byte: usize,
    line_property: &str,
    column_property: &str,
) -> Result<(), AllocError>
    ensures { OnOk result (string_bytes out.new ≡ string_bytes out.old
        ++ position_properties line_property.now column_property.now positions.now byte) }
{
    match positions.line_and_column(byte) {
        Some((line, column)) => write!(out, "{line_property}{line}{column_property}{column}"),
        None => Ok(()),
    }
}

/// Writes the note at the end of a message, if there is one, and ends the line.
fn push_end(out: &mut String, hint: Option<&str>) -> Result<(), AllocError>
    ensures { OnOk result (string_bytes out.new
        ≡ string_bytes out.old ++ (note_text (option_map (λ words. words.now) hint.entry) ++ codes "\n")) }
{
    match hint {
        Some(hint) => {
            out.push_str(": ")?;
            push_escaped(out, hint, false)?;
            out.push_str("\n")
        }
        None => out.push_str("\n"),
    }
}

/// Writes the value of a property, or else a part of a message.
fn push_escaped(out: &mut String, text: &str, in_property: bool) -> Result<(), AllocError>
    ensures { OnOk result (string_bytes out.new
        ≡ string_bytes out.old ++ flat_map (escaped_for in_property) (chars text.now)) }
{
    for c in text.chars() {
        push_character(out, c, in_property)?;
    }
    Ok(())
}

/// Writes a character of the value of a property, or else of a message.
#[tactic(auto, unfolding(crate::specs::Annotations::escaped, crate::specs::Annotations::escaped_in_property))]
fn push_character(out: &mut String, c: char, in_property: bool) -> Result<(), AllocError>
    ensures { OnOk result (string_bytes out.new ≡ string_bytes out.old ++ escaped_for in_property c) }
{
    match c {
        ':' if in_property => out.push_str("%3A"),
        ',' if in_property => out.push_str("%2C"),
        '%' => out.push_str("%25"),
        '\r' => out.push_str("%0D"),
        '\n' => out.push_str("%0A"),
        _ => out.push(c),
    }
}
