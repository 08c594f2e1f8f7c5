//! What columns count.

ghost use Rattle.std.specs.Prelude.{◌≡◌, ◌+◌, ◌^◌, ◌<◌, ◌≤◌, SomeIff};
ghost use Rattle.std.specs.Str.{IsCharBoundary, chars};
ghost use Rattle.cfglines.specs.Lines.{column, line_number};
ghost use Rattle.cfgrender.specs.Render.{after_character, column_in, display_width, line_before};

use crate::excerpt::line_bytes;
use cfglines::Positions;
use unicode_width::UnicodeWidthChar;

/// What columns count.
#[derive(Clone, Copy, Debug)]
pub enum ColumnUnit {
    /// Bytes.
    Bytes,
    /// Characters.
    Characters,
    /// Columns of a terminal: wide characters have two, and combining ones none. A tab ends at the next multiple of 8.
    Display,
}

impl ColumnUnit {
    /// The number of an offset's line, and its column in this unit, both from 1. `None` inside a character, or beyond
    /// the text's end.
    pub fn line_and_column(self, positions: &Positions<'_>, offset: usize) -> Option<(usize, u128)>
        ensures { SomeIff result (IsCharBoundary positions.now offset)
            (line_number positions.now offset, column_in self positions.now offset) }
    {
        let (line, characters) = positions.line_and_column(offset)?;
        let column = match self {
            ColumnUnit::Bytes => line_before(positions, offset).len() as u128 + 1,
            ColumnUnit::Characters => characters as u128,
            ColumnUnit::Display => display_width(line_before(positions, offset)) + 1,
        };
        Some((line, column))
    }
}

/// The part of an offset's line before it, without the CR of a line end.
fn line_before<'a>(positions: &Positions<'a>, offset: usize) -> &'a str
    requires { IsCharBoundary positions.now offset }
    ensures { result.now ≡ line_before positions.now offset }
{
    let (start, stop) = line_bytes(positions, offset);
    &positions.text()[start..offset.min(stop)]
}

/// How many columns of a terminal show a line.
fn display_width(line: &str) -> u128
    ensures value { result ≡ display_width (chars line.now) }
    ensures small { result < 2 ^ 127 }
{
    let mut width = 0;
    for c in line.chars() {
        width = after_character(width, c);
    }
    width
}

/// The column after a character, where so many are before it.
fn after_character(width: u128, c: char) -> u128
    requires { width < 2 ^ 127 }
    ensures value { result ≡ after_character width c }
    ensures small { result ≤ width + 8 }
{
    if c == '\t' {
        (width / 8 + 1) * 8
    } else {
        width + c.width().unwrap_or(0) as u128
    }
}
