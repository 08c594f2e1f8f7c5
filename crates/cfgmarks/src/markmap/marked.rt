//! What a map of marks has at a key.
ghost use Rattle.std.specs.Prelude.{◌≡◌, ◌≤◌};
ghost use Rattle.cfgmarks.specs.MarkWord.{set_behavior_word};

use super::MergeBehavior;

/// A key's marks, and its value if it holds one.
#[derive(Debug, Drop)]
pub struct Marked<V> {
    pub(super) used: bool,
    pub(super) required: bool,
    pub(super) behavior: Option<MergeBehavior>,
    pub(super) value: Option<V>,
}

/// A mark that a key can be given.
#[derive(Clone, Copy)]
pub(super) enum Mark {
    Used,
    Required,
    Merges(MergeBehavior),
}

impl<V> Marked<V> {
    ghost use Rattle.std.specs.Prelude.{◌≡◌, ◌&&◌, not, is_some, is_none};
    ghost use Rattle.cfgmarks.specs.Marks.{mark_word, unmarked};
    ghost use Rattle.cfgmarks.specs.Inner.Marking.{set_mark};
    ghost use Rattle.cfgmarks.specs.MarkLends.{lends_value_of};
    ghost use Rattle.std.specs.Borrow.{sem};

    /// No mark and no value.
    pub(super) fn new() -> Self
        ensures { result ≡ unmarked }
    {
        Marked {
            used: false,
            required: false,
            behavior: None,
            value: None,
        }
    }

    /// Sets the mark.
    pub(super) fn set(&mut self, mark: Mark)
        ensures { self.new ≡ set_mark mark self.old }
    {
        match mark {
            Mark::Used => self.used = true,
            Mark::Required => self.required = true,
            Mark::Merges(behavior) => self.behavior = Some(behavior),
        }
    }

    /// Sets the value, and lends it.
    pub(super) fn lend_value(&mut self, value: V) -> &mut V
    where
        V: Drop,
        ensures* writes_back { sem 𝓛 (lends_value_of V.row self.entry result) }
        ensures value { result.now ≡ value }
    {
        self.value.insert(value)
    }

    /// Whether there is a value that isn't marked as used.
    pub(super) fn is_unused(&self) -> bool
        ensures { result ≡ (is_some self.now.value && not self.now.used) }
    {
        self.value.is_some() && !self.used
    }

    /// Whether a value is required and missing.
    pub(super) fn is_missing(&self) -> bool
        ensures { result ≡ (self.now.required && is_none self.now.value) }
    {
        self.required && self.value.is_none()
    }

    /// The marks as one number: 1 for used, 2 for required, and 4 plus a bit of its own for a behavior.
    pub(super) fn word(&self) -> u16
        ensures { result ≡ mark_word self.now }
    {
        let used = if self.used { 1 } else { 0 };
        let required = if self.required { 2 } else { 0 };
        used + required + behavior_word(self.behavior)
    }
}

/// A behavior as a number; 0 if there is none.
pub(super) fn behavior_word(behavior: Option<MergeBehavior>) -> u16
    ensures value { result ≡ set_behavior_word behavior }
    ensures bound { result ≤ 1028 }
{
    match behavior {
        None => 0,
        Some(MergeBehavior::Theirs) => 4 + 256,
        Some(MergeBehavior::Ours) => 4 + 512,
        Some(MergeBehavior::MutuallyExclusive) => 4 + 1024,
    }
}

impl<V: PartialEq> PartialEq for Marked<V> {
    ghost use Rattle.std.specs.Prelude.{◌≡◌, ◌↔◌, IsTrue};
    ghost use Rattle.cfgmarks.specs.MarkSame.{IsIdentity, same_marked, same_marked_per};

    ghost eq = { same_marked V.eq };

    ghost laws = { same_marked_per V.laws };

    fn eq(&self, other: &Self) -> bool
        ensures value { result ≡ same_marked V.eq self.now other.now }
        ensures same { IsIdentity V.eq → (IsTrue result ↔ (self.now ≡ other.now)) }
    {
        self.word() == other.word() && self.value == other.value
    }
}

impl<V: Eq> Eq for Marked<V> {
    ghost use Rattle.cfgmarks.specs.MarkSame.{same_marked_equiv};

    ghost laws = { same_marked_equiv V.Eq.laws };
}
