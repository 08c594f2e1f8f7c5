//! What `==` and `clone` of merge behaviors compare and copy. They are derived, so each law names the impl, as in
//! `⟦<MergeBehavior as PartialEq>⟧`, and holds for every value.

ghost use Rattle.std.specs.Prelude.{◌≡◌, ◌↔◌, ◌*◌, IsTrue};
ghost use Rattle.cfgmarks.specs.MarkWord.{behavior_word};
ghost use Rattle.cfgmarks.specs.declared.markmap.behavior.MergeBehavior.{MergeBehavior};

use crate::markmap::MergeBehavior;

/// The three behaviors differ, and each is equal to itself. A clone equals its source and allocates nothing.
pub fn merge_behaviors_are_distinct()
    ensures equal { (a b : MergeBehavior) → IsTrue (⟦<MergeBehavior as PartialEq>⟧.eq a b) ↔ (a ≡ b) }
    ensures clone { (a b : MergeBehavior) → ⟦<MergeBehavior as Clone>⟧.is_clone a b → b ≡ a }
    ensures cloned { (a : MergeBehavior) → ⟦<MergeBehavior as Clone>⟧.is_infallible a }
{}

/// A behavior as a number is one bit, in the upper byte of a key's marks.
pub fn merge_behaviors_are_bits(behavior: MergeBehavior) -> u8
    ensures { 256 * result ≡ behavior_word behavior }
{
    behavior as u8
}
