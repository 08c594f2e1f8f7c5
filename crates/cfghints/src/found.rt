//! What a text begins with.

ghost use Rattle.std.specs.Prelude.{◌≡◌, ◌++◌, ◌≤◌, length};
ghost use Rattle.std.specs.List.{prefix_len};
ghost use Rattle.cfghints.specs.Hints.{continues, found};

use cfglines::positions::begins_character;
use cfgwords::bytes::ByteClass;

/// What a text begins with, as notes name it: a piece of it, in quotes, or its end, in words.
#[derive(Clone, Copy, Debug)]
pub(crate) struct Found<'a> {
    /// The quote on both sides, or nothing.
    pub(crate) quote: &'static str,
    /// The piece, or the words.
    pub(crate) words: &'a str,
}

impl<'a> Found<'a> {
    /// What the text begins with.
    pub(crate) fn at_start(text: &'a str) -> Found<'a>
        ensures { result.quote.now ++ (result.words.now ++ result.quote.now) ≡ found text.entry.now }
    {
        match text.as_bytes() {
            [] => Found {
                quote: "",
                words: "the end of the file",
            },
            [first, ..] if ByteClass::LineEnd.holds(*first) => Found {
                quote: "",
                words: "the end of the line",
            },
            [first, rest @ ..] => {
                let len = 1 + continued_len(*first, rest);
                Found {
                    quote: "'",
                    words: text.split_at(len).0,
                }
            }
        }
    }
}

/// How many bytes at the start of the rest belong to the piece that begins with the first byte.
fn continued_len(first: u8, rest: &[u8]) -> usize
    ensures value { result ≡ prefix_len (continues first) rest.now }
    ensures within { result ≤ length rest.now }
{
    for (i, byte) in rest.iter().enumerate() {
        if !continues(first, *byte) {
            return i;
        }
    }
    rest.len()
}

/// Whether a byte belongs to the piece that begins with the first byte.
fn continues(first: u8, byte: u8) -> bool
    ensures { result ≡ continues first byte }
{
    if first == b'%' {
        ByteClass::IdentifierByte.holds(byte) || byte == b'-' || byte == b'%'
    } else if ByteClass::NameStart.holds(first) {
        ByteClass::NameByte.holds(byte)
    } else if ByteClass::Digit.holds(first) {
        ByteClass::Digit.holds(byte)
    } else {
        !begins_character(byte)
    }
}
