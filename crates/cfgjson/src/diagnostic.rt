//! An error or a warning, as programs read it.

ghost use Rattle.std.specs.Prelude.{◌≡◌, IfOk, OnOk, map, string_bytes};
ghost use Rattle.serde_json.specs.View.{members_view, view};
ghost use Rattle.cfgjson.specs.Objects.{AddsJsonLine, IsJsonLine, diagnostic_object, text_at};
ghost use Rattle.cfgjson.specs.Inner.{put_diagnostic, put_hint, put_symbols, severity};

use crate::object::put_text;
use crate::place::places;
use crate::symbols::symbols;
use cfgbase::Span;
use cfglines::Positions;
use serde_json::{Map, Value, put};
use std::alloc::{AllocError, Global};
use std::marker::Model;

/// An error or a warning about a text.
#[derive(Debug, Drop)]
pub struct Diagnostic<'a> {
    pub is_error: bool,
    /// The word of its kind.
    pub kind: &'a str,
    /// What it says.
    pub text: &'a str,
    /// A note on it, if there is one.
    pub hint: Option<&'a str>,
    pub spans: &'a [Span],
    /// Whether the texts at the spans are names of rules and tokens.
    pub has_symbols: bool,
}

impl<'a> Model for Diagnostic<'a> {
    ghost use Rattle.std.specs.Option.{option_map};
    ghost use Rattle.cfgjson.specs.Objects.{ShownDiagnostic};

    ghost Value = { ShownDiagnostic };

    ghost view = { λ x. record {
      is_error = x.is_error;
      kind = x.kind.now;
      text = x.text.now;
      hint = option_map (λ words. words.now) x.hint;
      spans = x.spans.now;
      has_symbols = x.has_symbols;
    } };
}

/// Writes the line of an error or a warning about the text of a file of this name: an object without spaces, and an LF.
///
/// # Errors
///
/// `AllocError` if an allocation fails.
pub fn push_line(
    alloc: Global,
    out: &mut String,
    name: &str,
    positions: &Positions<'_>,
    diagnostic: &Diagnostic<'_>,
) -> Result<(), AllocError>
    ensures { OnOk result (AddsJsonLine (diagnostic_object name.now positions.now diagnostic.now)
        (string_bytes out.old) (string_bytes out.new)) }
{
    let line = line_of(alloc, name, positions, diagnostic)?;
    out.push_str(&line)?;
    out.push_str("\n")
}

/// The line, without the LF at its end.
fn line_of(
    alloc: Global,
    name: &str,
    positions: &Positions<'_>,
    diagnostic: &Diagnostic<'_>,
) -> Result<String, AllocError>
    ensures { IfOk result (λ line. IsJsonLine (diagnostic_object name.now positions.now diagnostic.now)
        (string_bytes line)) }
{
    object_of(alloc, name, positions, diagnostic)?.to_string(alloc)
}

/// The object.
fn object_of(
    alloc: Global,
    name: &str,
    positions: &Positions<'_>,
    diagnostic: &Diagnostic<'_>,
) -> Result<Value, AllocError>
    ensures { IfOk result (λ object. view object ≡ diagnostic_object name.now positions.now diagnostic.now) }
{
    let mut members = Map::new(alloc);
    put_members(alloc, &mut members, name, positions, diagnostic)?;
    Ok(Value::Object(members))
}

/// Adds its members.
fn put_members(
    alloc: Global,
    members: &mut Map<String, Value>,
    name: &str,
    positions: &Positions<'_>,
    diagnostic: &Diagnostic<'_>,
) -> Result<(), AllocError>
    ensures { OnOk result (members_view members.new.entries
        ≡ put_diagnostic name.now positions.now diagnostic.now (members_view members.old.entries)) }
{
    put_text(alloc, members, "file", name)?;
    put_text(alloc, members, "severity", severity(diagnostic.is_error))?;
    put_text(alloc, members, "kind", diagnostic.kind)?;
    put_text(alloc, members, "text", diagnostic.text)?;
    let places = places(alloc, positions, diagnostic.spans)?;
    put(members, alloc, "places", Value::Array(places))?;
    put_hint(alloc, members, diagnostic)?;
    put_symbols(alloc, members, positions.text(), diagnostic)
}

/// The word for how severe it is.
pub(crate) fn severity(is_error: bool) -> &'static str
    ensures { result.now ≡ severity is_error }
{
    if is_error { "error" } else { "warning" }
}

/// Adds the note, if there is one.
fn put_hint(
    alloc: Global,
    members: &mut Map<String, Value>,
    diagnostic: &Diagnostic<'_>,
) -> Result<(), AllocError>
    ensures { OnOk result (members_view members.new.entries
        ≡ put_hint diagnostic.now.hint (members_view members.old.entries)) }
{
    match diagnostic.hint {
        Some(hint) => put_text(alloc, members, "hint", hint),
        None => Ok(()),
    }
}

/// Adds the symbols, if there are any.
fn put_symbols(
    alloc: Global,
    members: &mut Map<String, Value>,
    text: &str,
    diagnostic: &Diagnostic<'_>,
) -> Result<(), AllocError>
    ensures { OnOk result (members_view members.new.entries
        ≡ put_symbols diagnostic.now.has_symbols (map (text_at text.now) diagnostic.now.spans)
        (members_view members.old.entries)) }
{
    if diagnostic.has_symbols {
        let symbols = symbols(alloc, text, diagnostic.spans)?;
        put(members, alloc, "symbols", Value::Array(symbols))
    } else {
        Ok(())
    }
}
