//! What is passed on the way to the byte that ends a word.

ghost use Rattle.std.specs.Prelude.{◌≡◌, ◌+◌, length};
ghost use Rattle.cfgwords.specs.Passed.{passes_one, passes_two, step_len, EndsInAscii, passed_len, passed};

use crate::bytes::ByteClass;

/// Single bytes, and pairs of bytes, that are passed on the way to the byte that ends a word.
#[derive(Clone, Copy, Debug, PartialEq, Eq)]
pub enum Passed {
    /// In a string, up to this quote: a backslash followed by a quote (`"` or `'`), and any byte but this quote, a
    /// backslash, a CR and an LF.
    InString(u8),
    /// Before a single colon: two colons, and any other byte.
    BeforeColon,
    /// Between double quotes: a backslash followed by any byte but an LF, and any byte but a double quote and a
    /// backslash.
    InQuotes,
}

impl Passed {
    fn passes_one(self, b: u8) -> bool
        ensures { result ≡ passes_one self b }
    {
        match self {
            Passed::InString(quote) => b != quote && b != b'\\' && !ByteClass::LineEnd.holds(b),
            Passed::BeforeColon => b != b':',
            Passed::InQuotes => b != b'"' && b != b'\\',
        }
    }

    fn passes_two(self, b: u8, c: u8) -> bool
        ensures { result ≡ passes_two self b c }
    {
        match self {
            Passed::InString(_) => b == b'\\' && ByteClass::Quote.holds(c),
            Passed::BeforeColon => b == b':' && c == b':',
            Passed::InQuotes => b == b'\\' && c != b'\n',
        }
    }

    /// How many bytes at the start are passed at once: one or two, or 0 where passing stops.
    fn step_len(self, bytes: &[u8]) -> usize
        ensures { result ≡ step_len self bytes.now }
    {
        match bytes {
            [b, ..] if self.passes_one(*b) => 1,
            [b, c, ..] if self.passes_two(*b, *c) => 2,
            _ => 0,
        }
    }
}

/// How many bytes at the start are passed.
fn passed_len(bytes: &[u8], kind: Passed) -> usize
    ensures { result ≡ passed_len kind bytes.now }
{
    let mut i: usize = 0;
    let mut step = kind.step_len(bytes);
    while step > 0 {
        i += step;
        step = kind.step_len(&bytes[i..]);
    }
    i
}

/// The longest prefix that is passed, and the rest after it. The quote of a string is ASCII.
pub fn pass(text: &str, kind: Passed) -> (&str, &str)
    requires { EndsInAscii kind }
    ensures parts { (result.0.now, result.1.now) ≡ passed kind text.now }
    ensures lengths { length result.0.now + length result.1.now ≡ length text.now }
{
    text.split_at(passed_len(text.as_bytes(), kind))
}
