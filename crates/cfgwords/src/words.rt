//! Names, identifiers, quoted tokens, tokens and integers.

ghost use Rattle.std.specs.Prelude.{◌≡◌, ◌+◌, ◌≤◌, length, None, IfSome, MatchOption, option_map};
ghost use Rattle.std.specs.Prelude.{if◌then◌else◌};
ghost use Rattle.std.specs.List.{prefix_len};
ghost use Rattle.cfgwords.specs.FileWords.{name_of, identifier_of, quoted_of, token_of, integer_of, run_from};
ghost use Rattle.cfgwords.specs.FileWords.{is_inside};
ghost use Rattle.cfgwords.specs.Inner.Ends.{IsQuotedLen};

use crate::bytes::ByteClass;
use crate::run::{run, starts};
use cfgbase::Span;

/// A name in a text, and its span.
#[derive(Clone, Copy, Debug)]
pub struct Word<'a> {
    pub name: &'a str,
    pub span: Span,
}

/// A token in a text: its name, the span of the name (without quotes), whether it was quoted, and the offset in bytes
/// where it ends (after a closing quote).
#[derive(Clone, Copy, Debug)]
pub struct Token<'a> {
    pub name: &'a str,
    pub span: Span,
    pub quoted: bool,
    pub end: usize,
}

impl<'a> Token<'a> {
    /// The name, with its span.
    pub fn word(&self) -> Word<'a>
        ensures { result ≡ record { name = self.now.name; span = self.now.span } }
    {
        Word {
            name: self.name,
            span: self.span,
        }
    }
}

/// The longest prefix of bytes of the second class, if the text begins with a byte of the first, and the rest after it.
#[tactic(auto, unfolding(crate::specs::FileWords::run_from))]
pub fn run_from(text: &str, first: ByteClass, others: ByteClass) -> Option<(&str, &str)>
    ensures exact { option_map (λ x. (x.0.now, x.1.now)) result ≡ run_from first others text.now }
    ensures lengths { IfSome result (λ x. length x.0.now + length x.1.now ≡ length text.now) }
{
    if !starts(text, first) {
        return None;
    }
    Some(run(text, others))
}

/// The name at the start of the text, and the rest after it: the longest `[a-zA-Z_.][a-zA-Z0-9_.]*`.
pub fn leading_name(text: &str) -> Option<(&str, &str)>
    ensures exact { option_map (λ x. (x.0.now, x.1.now)) result ≡ name_of text.now }
    ensures lengths { IfSome result (λ x. length x.0.now + length x.1.now ≡ length text.now) }
{
    run_from(text, ByteClass::NameStart, ByteClass::NameByte)
}

/// The identifier at the start of the text, and the rest after it: the longest `[a-zA-Z_][a-zA-Z_0-9]*`.
pub fn leading_identifier(text: &str) -> Option<(&str, &str)>
    ensures exact { option_map (λ x. (x.0.now, x.1.now)) result ≡ identifier_of text.now }
    ensures lengths { IfSome result (λ x. length x.0.now + length x.1.now ≡ length text.now) }
{
    run_from(text, ByteClass::IdentifierStart, ByteClass::IdentifierByte)
}

/// How many bytes precede the quote, an LF or the end.
fn inside_len(bytes: &[u8], quote: u8) -> usize
    ensures { result ≡ prefix_len (is_inside quote) bytes.now }
{
    for (i, b) in bytes.iter().enumerate() {
        if *b == quote || *b == b'\n' {
            return i;
        }
    }
    bytes.len()
}

/// How many bytes the name of the quoted token at the start has, if there is one.
fn quoted_len(bytes: &[u8]) -> Option<usize>
    ensures { MatchOption result (quoted_of bytes.now ≡ None) (λ n. IsQuotedLen bytes.now n) }
{
    if bytes.len() < 2 || !ByteClass::Quote.holds(bytes[0]) || bytes[1] == b'\n' {
        return None;
    }
    let len = inside_len(&bytes[2..], bytes[0]);
    if 2 + len < bytes.len() && bytes[2 + len] == bytes[0] {
        return Some(1 + len);
    }
    None
}

/// The name of the quoted token at the start of the text, and the rest after the closing quote: a quote, at least one
/// character, and the next quote of the same kind, within one line.
pub fn leading_quoted(text: &str) -> Option<(&str, &str)>
    ensures exact { option_map (λ x. (x.0.now, x.1.now)) result ≡ quoted_of text.now }
    ensures lengths { IfSome result (λ x. 2 + length x.0.now + length x.1.now ≡ length text.now) }
{
    let len = quoted_len(text.as_bytes())?;
    let (_, opened) = text.split_at(1);
    let (name, closed) = opened.split_at(len);
    let (_, rest) = closed.split_at(1);
    Some((name, rest))
}

/// The name of the token at the start of the text, whether it is quoted, and the rest after it: a quoted token or an
/// identifier.
#[tactic(auto, unfolding(crate::specs::FileWords::token_of))]
pub fn leading_token(text: &str) -> Option<(&str, bool, &str)>
    ensures exact { option_map (λ x. (record { name = x.0.now; quoted = x.1 }, x.2.now)) result ≡ token_of text.now }
    ensures lengths { IfSome result
        (λ x. (if x.1 then 2 else 0) + length x.0.now + length x.2.now ≡ length text.now) }
{
    if starts(text, ByteClass::Quote) {
        let (name, rest) = leading_quoted(text)?;
        return Some((name, true, rest));
    }
    let (name, rest) = leading_identifier(text)?;
    Some((name, false, rest))
}

/// The integer at the start of the text, and the rest after it: the value of the longest `[0-9]+` in decimal, if it
/// fits in a `usize`.
#[tactic(auto, unfolding(crate::specs::FileWords::integer_of))]
pub fn leading_integer(text: &str) -> Option<(usize, &str)>
    ensures exact { option_map (λ x. (x.0, x.1.now)) result ≡ integer_of text.now }
    ensures lengths { IfSome result (λ x. length x.1.now ≤ length text.now) }
{
    let (digits, rest) = run_from(text, ByteClass::Digit, ByteClass::Digit)?;
    match digits.parse::<usize>() {
        Ok(number) => Some((number, rest)),
        Err(_) => None,
    }
}
