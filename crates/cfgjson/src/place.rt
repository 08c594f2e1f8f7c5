//! Where spans are in a text.

ghost use Rattle.std.specs.Prelude.{◌≡◌, IfOk, OnOk, map};
ghost use Rattle.serde_json.specs.View.{items_of, items_view, members_view, view};
ghost use Rattle.cfgjson.specs.Objects.{place_of, position_of};
ghost use Rattle.cfgjson.specs.Inner.{put_place, put_position};

use crate::object::put_count;
use cfgbase::Span;
use cfglines::Positions;
use serde_json::{Map, Value, put};
use std::alloc::{AllocError, Global};

/// Where each of the spans is.
pub(crate) fn places(
    alloc: Global,
    positions: &Positions<'_>,
    spans: &[Span],
) -> Result<Vec<Value>, AllocError>
    ensures { IfOk result (λ places. items_view places.items ≡ items_of (map (place_of positions.now) spans.now)) }
{
    let mut places = Vec::new(alloc);
    for span in spans {
        places.push(place(alloc, positions, *span)?)?;
    }
    Ok(places)
}

/// Where a span is.
#[tactic(auto, unfolding(crate::specs::Objects::place_of))]
fn place(alloc: Global, positions: &Positions<'_>, span: Span) -> Result<Value, AllocError>
    ensures { IfOk result (λ place. view place ≡ place_of positions.now span) }
{
    let mut members = Map::new(alloc);
    put_place(alloc, &mut members, positions, span)?;
    Ok(Value::Object(members))
}

/// Adds where a span starts and ends.
fn put_place(
    alloc: Global,
    members: &mut Map<String, Value>,
    positions: &Positions<'_>,
    span: Span,
) -> Result<(), AllocError>
    ensures { OnOk result (members_view members.new.entries
        ≡ put_place positions.now span (members_view members.old.entries)) }
{
    let (start, end) = (span.start(), span.end());
    put_position(alloc, members, positions, start, "line", "column")?;
    put_position(alloc, members, positions, end, "end_line", "end_column")?;
    put_count(alloc, members, "start", start)?;
    put_count(alloc, members, "end", end)
}

/// Adds the line and the column of a byte by these names, or null if it is inside a character or beyond the text's end.
fn put_position(
    alloc: Global,
    members: &mut Map<String, Value>,
    positions: &Positions<'_>,
    byte: usize,
    line_name: &str,
    column_name: &str,
) -> Result<(), AllocError>
    ensures { OnOk result (members_view members.new.entries
        ≡ put_position line_name.now column_name.now (position_of positions.now byte)
        (members_view members.old.entries)) }
{
    match positions.line_and_column(byte) {
        Some((line, column)) => {
            put_count(alloc, members, line_name, line)?;
            put_count(alloc, members, column_name, column)
        }
        None => {
            put(members, alloc, line_name, Value::Null)?;
            put(members, alloc, column_name, Value::Null)
        }
    }
}
