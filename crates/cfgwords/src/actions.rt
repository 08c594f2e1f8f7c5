//! Actions.

ghost use Rattle.std.specs.Prelude.{◌≡◌, ◌+◌, ◌≤◌, length, None, IfSome, MatchOption};
ghost use Rattle.std.specs.Option.{option_map};
ghost use Rattle.cfgwords.specs.Actions.{action_of, split_balanced};
ghost use Rattle.cfgwords.specs.Inner.Ends.{IsClosedAt};

use constructs::after_word;

/// How many bytes precede the brace that closes one more than are opened.
fn balanced_len(bytes: &[u8]) -> Option<usize>
    ensures { MatchOption result (split_balanced 0 bytes.now ≡ None) (λ n. IsClosedAt bytes.now n) }
{
    let mut depth: usize = 0;
    for (i, b) in bytes.iter().enumerate() {
        if *b == b'{' {
            depth += 1;
        } else if *b == b'}' {
            if depth == 0 {
                return Some(i);
            }
            depth -= 1;
        }
    }
    None
}

/// The action at the start of the text, trimmed, and the rest after its closing brace: what is between a brace and the
/// one that balances it. Braces in strings and comments count too.
#[tactic(auto, unfolding(crate::specs::Actions::action_of))]
pub fn leading_action(text: &str) -> Option<(&str, &str)>
    ensures exact { option_map (λ x. (x.0.now, x.1.now)) result ≡ action_of text.now }
    ensures lengths { IfSome result (λ x. 2 + length x.0.now + length x.1.now ≤ length text.now) }
{
    let opened = after_word(text, "{")?;
    let len = balanced_len(opened.as_bytes())?;
    let (inside, closed) = opened.split_at(len);
    let (_, rest) = closed.split_at(1);
    Some((inside.trim(), rest))
}
