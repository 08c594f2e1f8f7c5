//! Text up to a single colon.

ghost use Rattle.std.specs.Prelude.{◌≡◌, ◌+◌, ◌≤◌, length, IfSome};
ghost use Rattle.std.specs.Option.{option_map};
ghost use Rattle.cfgwords.specs.ColonText.{before_colon};

use crate::passed::{Passed, pass};

/// What precedes the first single colon, trimmed, and the rest from that colon on; `None` if there is none. From the
/// start on, two adjacent colons are passed as a pair; line ends are passed too.
#[tactic(auto, unfolding(crate::specs::ColonText::before_colon))]
pub fn text_to_colon(text: &str) -> Option<(&str, &str)>
    ensures exact { option_map (λ x. (x.0.now, x.1.now)) result ≡ before_colon text.now }
    ensures lengths { IfSome result (λ x. length x.0.now + length x.1.now ≤ length text.now) }
{
    let (inside, rest) = pass(text, Passed::BeforeColon);
    match rest.as_bytes() {
        [] => None,
        [_, ..] => Some((inside.trim(), rest)),
    }
}
