//! Texts as they are shown, with escapes for control characters and format characters.

ghost use Rattle.std.specs.Prelude.{◌≡◌, ◌++◌, OnOk, length, string_bytes};
ghost use Rattle.std.specs.Fmt.{WritesOnOk};
ghost use Rattle.std.specs.List.{list_any};
ghost use Rattle.std.specs.Str.{chars, encode_utf8_all};
ghost use Rattle.cfgrender.specs.Visible.{is_escaped, is_format, shown_as, visible};

use std::alloc::AllocError;
use std::fmt;

/// Displays a text as [`render`](crate::render) shows it: the escape of each control character other than a tab, as
/// `\u{1b}`, and of each format character (Unicode's category Cf), as `\u{202e}`, is in its place. So a name or an
/// argument that is displayed stays on its line and doesn't change how others are seen.
#[derive(Drop)]
pub struct Visible<'a>(pub &'a str);

impl fmt::Display for Visible<'_> {
    ghost use Rattle.std.specs.Prelude.{Some};

    ghost output = { λ x. Some (visible x.0.now) };

    fn fmt<W: fmt::Write>(&self, f: &mut fmt::Formatter<W>) -> fmt::Result {
        write_visible(f, self.0)
    }
}

/// Writes a text as it is shown.
fn write_visible<W: fmt::Write>(f: &mut fmt::Formatter<W>, text: &str) -> fmt::Result
    ensures { WritesOnOk W.write_str_gives f.old result (visible text.now) f.new }
{
    if !has_escapes(text) {
        return f.write_str(text);
    }
    for c in text.chars() {
        write_shown(f, c)?;
    }
    Ok(())
}

/// Writes what shows a character.
fn write_shown<W: fmt::Write>(f: &mut fmt::Formatter<W>, c: char) -> fmt::Result
    ensures { WritesOnOk W.write_str_gives f.old result (encode_utf8_all (shown_as c)) f.new }
{
    if is_escaped(c) {
        let code = u32::from(c);
        write!(f, "\\u{{{code:x}}}")
    } else {
        f.write_char(c)
    }
}

/// Adds a text as it is shown.
pub(crate) fn push_visible(out: &mut String, text: &str) -> Result<(), AllocError>
    ensures { OnOk result (string_bytes out.new ≡ string_bytes out.old ++ visible text.now) }
{
    write!(out, "{}", Visible(text))
}

/// Whether a text has a character that is shown as its escape.
fn has_escapes(text: &str) -> bool
    ensures { result ≡ list_any is_escaped (chars text.now) }
{
    text.chars().any(|c| is_escaped(c))
}

/// How many characters show a character.
pub(crate) fn shown_width(c: char) -> usize
    ensures { result ≡ length (shown_as c) }
{
    if is_escaped(c) {
        c.escape_unicode().len()
    } else {
        1
    }
}

/// Whether a character is shown as its escape.
fn is_escaped(c: char) -> bool
    ensures { result ≡ is_escaped c }
{
    (c.is_control() && c != '\t') || is_format(c)
}

/// Whether a character is a format character of Unicode 15.0, of its general category Cf.
fn is_format(c: char) -> bool
    ensures { result ≡ is_format c }
{
    FORMAT_RANGES
        .iter()
        .any(|range| range.0 <= c && c <= range.1)
}

/// The format characters: the first and the last of each range.
const FORMAT_RANGES: [(char, char); 21] = [
    ('\u{ad}', '\u{ad}'),
    ('\u{600}', '\u{605}'),
    ('\u{61c}', '\u{61c}'),
    ('\u{6dd}', '\u{6dd}'),
    ('\u{70f}', '\u{70f}'),
    ('\u{890}', '\u{891}'),
    ('\u{8e2}', '\u{8e2}'),
    ('\u{180e}', '\u{180e}'),
    ('\u{200b}', '\u{200f}'),
    ('\u{202a}', '\u{202e}'),
    ('\u{2060}', '\u{2064}'),
    ('\u{2066}', '\u{206f}'),
    ('\u{feff}', '\u{feff}'),
    ('\u{fff9}', '\u{fffb}'),
    ('\u{110bd}', '\u{110bd}'),
    ('\u{110cd}', '\u{110cd}'),
    ('\u{13430}', '\u{1343f}'),
    ('\u{1bca0}', '\u{1bca3}'),
    ('\u{1d173}', '\u{1d17a}'),
    ('\u{e0001}', '\u{e0001}'),
    ('\u{e0020}', '\u{e007f}'),
];
