//! Longest runs of one class of bytes.

ghost use Rattle.std.specs.Prelude.{◌≡◌, ◌+◌, length, false};
ghost use Rattle.std.specs.List.{prefix_len};
ghost use Rattle.constructs.specs.Pieces.{starts, run};
ghost use Rattle.cfgwords.specs.Bytes.{holds};

use crate::bytes::ByteClass;

/// Whether the text begins with a byte of the class.
pub fn starts(text: &str, class: ByteClass) -> bool
    ensures { result ≡ starts (holds class) text.now }
{
    match text.as_bytes() {
        [] => false,
        [b, ..] => class.holds(*b),
    }
}

/// How many bytes at the start of the text are in the class.
fn run_len(text: &str, class: ByteClass) -> usize
    ensures { result ≡ prefix_len (holds class) text.now }
{
    let bytes = text.as_bytes();
    for (i, b) in bytes.iter().enumerate() {
        if !class.holds(*b) {
            return i;
        }
    }
    bytes.len()
}

/// The longest prefix of bytes in the class, and the rest after it.
#[tactic(auto, using(crate::proofs::Boundaries::run_boundary, crate::proofs::Boundaries::run_stops))]
pub fn run(text: &str, class: ByteClass) -> (&str, &str)
    ensures prefix { result.0.now ≡ (run (holds class) text.now).0 }
    ensures back { result.1.now ≡ (run (holds class) text.now).1 }
    ensures longest { starts (holds class) result.1.now ≡ false }
    ensures lengths { length result.0.now + length result.1.now ≡ length text.now }
{
    text.split_at(run_len(text, class))
}
