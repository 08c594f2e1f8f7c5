//! Words and needles in a text.

ghost use Rattle.std.specs.Prelude.{◌≡◌, ◌==◌, ◌+◌, length, IfSome};
ghost use Rattle.std.specs.Option.{option_map};
ghost use Rattle.constructs.specs.Pieces.{starts, strip, split_first};

/// Whether the text begins with the byte.
fn begins_with(text: &str, byte: u8) -> bool
    ensures { result ≡ starts (λ b. byte == b) text.now }
{
    match text.as_bytes() {
        [] => false,
        [b, ..] => byte == *b,
    }
}

/// The rest of a text after a word at its start; `None` if it doesn't begin with the word. Usually the first byte
/// decides.
#[tactic(auto, using(crate::proofs::TextLemmas::strip_prefix_strip))]
pub fn after_word<'a>(text: &'a str, word: &str) -> Option<&'a str>
    ensures rest { option_map (λ x. x.now) result ≡ strip word.now text.now }
    ensures shorter { IfSome result (λ x. length x.now + length word.now ≡ length text.now) }
{
    match word.as_bytes() {
        [b, ..] if !begins_with(text, *b) => None,
        _ => text.strip_prefix(word),
    }
}

/// What precedes the first needle of a text, and the rest after it; `None` if there is no needle.
pub fn split_at_first<'a>(text: &'a str, needle: &str) -> Option<(&'a str, &'a str)>
    ensures parts { option_map (λ x. (x.0.now, x.1.now)) result ≡ split_first needle.now text.now }
    ensures shorter { IfSome result (λ x. length x.0.now + length needle.now + length x.1.now ≡ length text.now) }
{
    text.split_once(needle)
}
