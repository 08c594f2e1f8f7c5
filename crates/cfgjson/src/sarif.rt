//! An error or a warning as a result of SARIF.

ghost use Rattle.std.specs.Prelude.{◌≡◌, [], ◌∷◌, ◌++◌, IfOk, OnOk, map, option_and_then, string_bytes};
ghost use Rattle.serde_json.specs.View.{items_of, items_view, members_view, view};
ghost use Rattle.serde_json.specs.Written.{compact_text};
ghost use Rattle.cfgjson.specs.Sarif.{location_of, main_location, message_of, other_locations};
ghost use Rattle.cfgjson.specs.Sarif.{region, region_of, result_line, result_text, sarif_result};
ghost use Rattle.cfgjson.specs.Sarif as sarif;
ghost use Rattle.cfgjson.specs.Inner.{put_ends, put_file, put_locations, put_region, put_result};

use crate::diagnostic::{Diagnostic, severity};
use crate::object::{object_with, put_count, put_text};
use crate::uri::uri_of;
use cfgbase::Span;
use cfglines::Positions;
use serde_json::{Map, ToValue, Value, put};
use std::alloc::{AllocError, Global};

/// Writes an error or a warning about the text of a file of this name as a result of SARIF, on a line, after a comma
/// and an LF.
///
/// # Errors
///
/// `AllocError` if an allocation fails.
pub fn push_result(
    alloc: Global,
    out: &mut String,
    name: &str,
    positions: &Positions<'_>,
    diagnostic: &Diagnostic<'_>,
) -> Result<(), AllocError>
    ensures { OnOk result (string_bytes out.new
        ≡ string_bytes out.old ++ result_line name.now positions.now diagnostic.now) }
{
    let line = line_of(alloc, name, positions, diagnostic)?;
    out.push_str(",\n")?;
    out.push_str(&line)
}

/// The result, as JSON without spaces.
fn line_of(
    alloc: Global,
    name: &str,
    positions: &Positions<'_>,
    diagnostic: &Diagnostic<'_>,
) -> Result<String, AllocError>
    ensures { IfOk result (λ line. string_bytes line
        ≡ compact_text (sarif_result name.now positions.now diagnostic.now)) }
{
    object_of(alloc, name, positions, diagnostic)?.to_string(alloc)
}

/// The result.
#[tactic(auto, unfolding(crate::specs::Sarif::sarif_result))]
fn object_of(
    alloc: Global,
    name: &str,
    positions: &Positions<'_>,
    diagnostic: &Diagnostic<'_>,
) -> Result<Value, AllocError>
    ensures { IfOk result (λ object. view object ≡ sarif_result name.now positions.now diagnostic.now) }
{
    let mut members = Map::new(alloc);
    put_members(alloc, &mut members, name, positions, diagnostic)?;
    Ok(Value::Object(members))
}

/// Adds its members.
fn put_members(
    alloc: Global,
    members: &mut Map<String, Value>,
    name: &str,
    positions: &Positions<'_>,
    diagnostic: &Diagnostic<'_>,
) -> Result<(), AllocError>
    ensures { OnOk result (members_view members.new.entries
        ≡ put_result name.now positions.now diagnostic.now (members_view members.old.entries)) }
{
    put_text(alloc, members, "level", severity(diagnostic.is_error))?;
    put_text(alloc, members, "ruleId", diagnostic.kind)?;
    let message = message_of(alloc, diagnostic)?;
    put(members, alloc, "message", message)?;
    let uri = uri_of(alloc, name)?;
    put_locations(alloc, members, &uri, positions, diagnostic.spans)
}

/// What a result says, as an object.
fn message_of(alloc: Global, diagnostic: &Diagnostic<'_>) -> Result<Value, AllocError>
    ensures { IfOk result (λ message. view message ≡ message_of (result_text diagnostic.now)) }
{
    let text = result_text(alloc, diagnostic)?;
    object_with(alloc, "text", Value::String(text))
}

/// What a result says, with the note on it if there is one.
fn result_text(alloc: Global, diagnostic: &Diagnostic<'_>) -> Result<String, AllocError>
    ensures { IfOk result (λ text. string_bytes text ≡ result_text diagnostic.now) }
{
    let text = diagnostic.text;
    match diagnostic.hint {
        Some(hint) => format!(in alloc; "{text}: {hint}"),
        None => String::from_str(alloc, text),
    }
}

/// Adds where a result is, and where its other spans are.
fn put_locations(
    alloc: Global,
    members: &mut Map<String, Value>,
    uri: &str,
    positions: &Positions<'_>,
    spans: &[Span],
) -> Result<(), AllocError>
    ensures { OnOk result (members_view members.new.entries
        ≡ put_locations uri.now positions.now spans.now (members_view members.old.entries)) }
{
    let main = main_locations(alloc, uri, positions, spans)?;
    put(members, alloc, "locations", Value::Array(main))?;
    let others = other_locations(alloc, uri, positions, spans)?;
    put(members, alloc, "relatedLocations", Value::Array(others))
}

/// Where a result is: where its first span is, or else the file as a whole.
fn main_locations(
    alloc: Global,
    uri: &str,
    positions: &Positions<'_>,
    spans: &[Span],
) -> Result<Vec<Value>, AllocError>
    ensures { IfOk result (λ places. items_view places.items
        ≡ items_of (main_location uri.now positions.now spans.now ∷ [])) }
{
    let mut places = Vec::new(alloc);
    places.push(main_location(alloc, uri, positions, spans)?)?;
    Ok(places)
}

/// The only one of these places.
#[tactic(auto, unfolding(crate::specs::Sarif::main_location))]
fn main_location(
    alloc: Global,
    uri: &str,
    positions: &Positions<'_>,
    spans: &[Span],
) -> Result<Value, AllocError>
    ensures { IfOk result (λ place. view place ≡ main_location uri.now positions.now spans.now) }
{
    match spans {
        [] => location(alloc, uri, positions, None),
        [first, ..] => location(alloc, uri, positions, Some(*first)),
    }
}

/// Where the other spans of a result are.
fn other_locations(
    alloc: Global,
    uri: &str,
    positions: &Positions<'_>,
    spans: &[Span],
) -> Result<Vec<Value>, AllocError>
    ensures { IfOk result (λ places. items_view places.items
        ≡ items_of (other_locations uri.now positions.now spans.now)) }
{
    match spans {
        [] => Ok(Vec::new(alloc)),
        [_, others @ ..] => locations(alloc, uri, positions, others),
    }
}

/// Where each of these spans is.
fn locations(
    alloc: Global,
    uri: &str,
    positions: &Positions<'_>,
    spans: &[Span],
) -> Result<Vec<Value>, AllocError>
    ensures { IfOk result (λ places. items_view places.items
        ≡ items_of (map (location_of uri.now positions.now) spans.now)) }
{
    let mut places = Vec::new(alloc);
    for span in spans {
        places.push(location(alloc, uri, positions, Some(*span))?)?;
    }
    Ok(places)
}

/// The file with this URI, or the region of a span in it.
fn location(
    alloc: Global,
    uri: &str,
    positions: &Positions<'_>,
    span: Option<Span>,
) -> Result<Value, AllocError>
    ensures { IfOk result (λ place. view place
        ≡ sarif.location uri.now (option_and_then (region_of positions.now) span)) }
{
    let mut place = Map::new(alloc);
    put_place(alloc, &mut place, uri, positions, span)?;
    object_with(alloc, "physicalLocation", Value::Object(place))
}

/// Adds the file with this URI, and the region of a span in it.
fn put_place(
    alloc: Global,
    place: &mut Map<String, Value>,
    uri: &str,
    positions: &Positions<'_>,
    span: Option<Span>,
) -> Result<(), AllocError>
    ensures { OnOk result (members_view place.new.entries
        ≡ put_region (option_and_then (region_of positions.now) span)
        (put_file uri.now (members_view place.old.entries))) }
{
    let uri = uri.to_value(alloc)?;
    let file = object_with(alloc, "uri", uri)?;
    put(place, alloc, "artifactLocation", file)?;
    match span {
        Some(span) => put_region(alloc, place, positions, span),
        None => Ok(()),
    }
}

/// Adds the region of a span, if it starts and ends at character boundaries of the text.
#[tactic(auto, unfolding(crate::specs::Sarif::region_of))]
fn put_region(
    alloc: Global,
    place: &mut Map<String, Value>,
    positions: &Positions<'_>,
    span: Span,
) -> Result<(), AllocError>
    ensures { OnOk result (members_view place.new.entries
        ≡ put_region (region_of positions.now span) (members_view place.old.entries)) }
{
    let Some(start) = positions.line_and_column(span.start()) else {
        return Ok(());
    };
    let Some(end) = positions.line_and_column(span.end()) else {
        return Ok(());
    };
    let region = region(alloc, start, end)?;
    put(place, alloc, "region", region)
}

/// The region between these lines and columns.
#[tactic(auto, unfolding(crate::specs::Sarif::region))]
fn region(alloc: Global, start: (usize, usize), end: (usize, usize)) -> Result<Value, AllocError>
    ensures { IfOk result (λ found. view found ≡ region start end) }
{
    let mut region = Map::new(alloc);
    put_ends(alloc, &mut region, start, end)?;
    Ok(Value::Object(region))
}

/// Adds these lines and columns.
fn put_ends(
    alloc: Global,
    region: &mut Map<String, Value>,
    start: (usize, usize),
    end: (usize, usize),
) -> Result<(), AllocError>
    ensures { OnOk result (members_view region.new.entries ≡ put_ends start end (members_view region.old.entries)) }
{
    put_count(alloc, region, "startLine", start.0)?;
    put_count(alloc, region, "startColumn", start.1)?;
    put_count(alloc, region, "endLine", end.0)?;
    put_count(alloc, region, "endColumn", end.1)
}
