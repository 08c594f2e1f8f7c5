//! The strings of `%epp`.

ghost use Rattle.std.specs.Prelude.{◌≡◌, ◌+◌, ◌≤◌, length, true, IfOk, MatchResult};
ghost use Rattle.std.specs.String.{string_bytes};
ghost use Rattle.cfgwords.specs.Strings.{raw_string, raw_view, unescaped, closed_by};
ghost use Rattle.cfgwords.specs.Bytes.{holds};

use crate::bytes::ByteClass;
use crate::passed::{Passed, pass};
use constructs::split_at_first;
use std::alloc::{AllocError, Global};

/// What precedes the closing quote, and the rest after it, if the string is closed here.
fn closed_by<'a>(quote: u8, inside: &'a str, left: &'a str) -> Result<(&'a str, &'a str), &'a str>
    requires { holds ByteClass.Quote quote ≡ true }
    ensures { raw_view result ≡ closed_by quote (inside.now, left.now) }
{
    match left.as_bytes() {
        [b, ..] if *b == quote => Ok((inside, left.split_at(1).1)),
        _ => Err(left),
    }
}

/// What is between the quotes of the string at the start of the text, with its backslashes, and the rest after the
/// closing quote. A string is a quote, any bytes except that quote, a backslash, a CR and an LF, or a backslash
/// followed by a quote (`"` or `'`), and the same quote.
///
/// # Errors
///
/// If there is no such string, the rest from the fault on: at the start if there is no quote, else at a CR, an LF, a
/// backslash with no quote after it, or the end.
#[tactic(auto, unfolding(crate::specs::Strings::raw_string))]
pub fn leading_string(text: &str) -> Result<(&str, &str), &str>
    ensures exact { raw_view result ≡ raw_string text.now }
    ensures lengths { MatchResult result (λ x. 2 + length x.0.now + length x.1.now ≡ length text.now)
        (λ left. length left.now ≤ length text.now) }
{
    let quote = match text.as_bytes() {
        [b, ..] if ByteClass::Quote.holds(*b) => *b,
        _ => return Err(text),
    };
    let (_, opened) = text.split_at(1);
    let (inside, left) = pass(opened, Passed::InString(quote));
    closed_by(quote, inside, left)
}

/// The text without its backslashes.
///
/// # Errors
///
/// `AllocError` if an allocation fails.
pub fn unescaped(alloc: Global, text: &str) -> Result<String, AllocError>
    ensures { IfOk result (λ value. string_bytes value ≡ unescaped text.now) }
{
    let mut value = String::new(alloc);
    let mut rest = text;
    while let Some((prefix, after)) = split_at_first(rest, "\\") {
        value.push_str(prefix)?;
        rest = after;
    }
    value.push_str(rest)?;
    Ok(value)
}
