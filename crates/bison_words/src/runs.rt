//! Runs of one class of bytes, single bytes, and characters.

ghost use Rattle.std.specs.Prelude.{◌≡◌, ◌-◌, ◌⊎◌, length, min, take, drop, option_map};
ghost use Rattle.std.specs.List.{prefix_len};
ghost use Rattle.constructs.specs.Pieces.{starts, run};
ghost use Rattle.bison_words.specs.Bytes.{holds, is_continuation};
ghost use Rattle.bison_words.specs.Here.{begins};
ghost use Rattle.bison_words.specs.Runs.{byte_of};
ghost use Rattle.bison_words.specs.Suffixes.{IsSuffix};
ghost use Rattle.bison_words.specs.Inner.Rests.{IsAfterCharacter};

use crate::class::Class;
use constructs::after_word;

/// Whether the text begins with the word.
pub(crate) fn begins(text: &str, word: &str) -> bool
    ensures { result ≡ begins word.now text.now }
{
    after_word(text, word).is_some()
}

/// Whether the text begins with a byte of the class.
pub(crate) fn starts(text: &str, class: Class) -> bool
    ensures { result ≡ starts (holds class) text.now }
{
    match text.as_bytes() {
        [] => false,
        [b, ..] => class.holds(*b),
    }
}

/// How many bytes of the class the text begins with.
pub(crate) fn run_len(text: &str, class: Class) -> usize
    ensures { result ≡ prefix_len (holds class) text.now }
{
    let bytes = text.as_bytes();
    for (i, b) in bytes.iter().enumerate() {
        if !class.holds(*b) {
            return i;
        }
    }
    bytes.len()
}

/// The longest prefix of bytes of the class, and the rest after it.
#[tactic(auto, using(crate::proofs::Boundaries::run_boundary))]
pub(crate) fn run(text: &str, class: Class) -> (&str, &str)
    ensures parts { (result.0.now, result.1.now) ≡ run (holds class) text.now }
{
    text.split_at(run_len(text, class))
}

/// The ASCII byte of the class that the text begins with, and the rest after it.
pub(crate) fn leading_byte(text: &str, class: Class) -> Option<(u8, &str)>
    ensures { option_map (λ x. (x.0, x.1.now)) result ≡ byte_of class text.now }
{
    match text.as_bytes() {
        [b, ..] if *b < 128 && class.holds(*b) => Some((*b, text.split_at(1).1)),
        _ => None,
    }
}

/// At most so many bytes of digits that the text begins with, and the rest after them.
#[tactic(auto, using(crate::proofs::Boundaries::few_boundary))]
pub(crate) fn few(text: &str, class: Class, most: usize) -> (&str, &str)
    requires { (class ≡ Class.Octal) ⊎ (class ≡ Class.Hexadecimal) }
    ensures { let n = min most (prefix_len (holds class) text.now) in
        (result.0.now ≡ take n text.now) × (result.1.now ≡ drop n text.now) }
{
    text.split_at(run_len(text, class).min(most))
}

/// How many bytes continue the character before these.
fn continuation_len(bytes: &[u8]) -> usize
    ensures { result ≡ prefix_len is_continuation bytes.now }
{
    for (i, b) in bytes.iter().enumerate() {
        if *b < 128 || *b >= 192 {
            return i;
        }
    }
    bytes.len()
}

/// The rest after the character that the text begins with, if there is one.
pub(crate) fn after_character(text: &str) -> &str
    ensures { IsAfterCharacter text.now result.now }
{
    match text.as_bytes() {
        [] => text,
        [_, others @ ..] => text.split_at(1 + continuation_len(others)).1,
    }
}

/// What precedes the rest of a text.
pub(crate) fn before<'a>(text: &'a str, rest: &str) -> &'a str
    requires { IsSuffix text.now rest.now }
    ensures { result.now ≡ take (length text.now - length rest.now) text.now }
{
    text.split_at(text.len().saturating_sub(rest.len())).0
}
