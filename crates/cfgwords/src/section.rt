//! Words of a `%grmtools` section.

ghost use Rattle.std.specs.Prelude.{◌≡◌, ◌+◌, length, IfSome, option_map};
ghost use Rattle.cfgwords.specs.SectionWords.{name_of, text_of};

use crate::bytes::ByteClass;
use crate::passed::{Passed, pass};
use crate::words::run_from;
use constructs::after_word;

/// The name at the start of the text, and the rest after it: the longest `[a-zA-Z][a-zA-Z_]*`.
pub fn leading_section_name(text: &str) -> Option<(&str, &str)>
    ensures exact { option_map (λ x. (x.0.now, x.1.now)) result ≡ name_of text.now }
    ensures lengths { IfSome result (λ x. length x.0.now + length x.1.now ≡ length text.now) }
{
    run_from(text, ByteClass::Letter, ByteClass::IdentifierStart)
}

/// What is between the two double quotes at the start of the text, and the rest after them: single characters except
/// double quotes and backslashes, and backslashes followed by any character but an LF.
#[tactic(auto, unfolding(crate::specs::SectionWords::text_of))]
pub fn leading_text(text: &str) -> Option<(&str, &str)>
    ensures exact { option_map (λ x. (x.0.now, x.1.now)) result ≡ text_of text.now }
    ensures lengths { IfSome result (λ x. 2 + length x.0.now + length x.1.now ≡ length text.now) }
{
    let opened = after_word(text, "\"")?;
    let (inside, left) = pass(opened, Passed::InQuotes);
    let rest = after_word(left, "\"")?;
    Some((inside, rest))
}
