//! A view of a key that holds a value.
ghost use Rattle.std.specs.Prelude.{◌≡◌, Some};
ghost use Rattle.cfgmarks.specs.Marks.{mark_word, set_used, set_required, set_behavior, set_value};
ghost use Rattle.cfgmarks.specs.MarkEntry.{occupied_marks, IsChanged};
ghost use Rattle.cfgmarks.specs.Inner.Marking.{set_mark};

use super::OccupiedEntry;
use crate::markmap::{Mark, MergeBehavior};

impl<'a, K: Ord + Clone, V: Drop> OccupiedEntry<'a, K, V> {
    /// The value.
    pub fn get(&self) -> &V
        ensures { (occupied_marks K.cmp self.now).value ≡ Some result.now }
    {
        self.map.get(&self.key).unwrap()
    }

    /// The marks as one number: 1 for used, 2 for required, and for a behavior 4 plus 256 for `Theirs`, 512 for `Ours`
    /// or 1024 for `MutuallyExclusive`.
    pub fn get_mark(&self) -> u16
        ensures { result ≡ mark_word (occupied_marks K.cmp self.now) }
    {
        self.map.mark_word(&self.key)
    }

    /// Whether the key is marked as used.
    pub fn is_used(&self) -> bool
        ensures { result ≡ (occupied_marks K.cmp self.now).used }
    {
        self.map.is_used(&self.key)
    }

    /// Whether the key is marked as required.
    pub fn is_required(&self) -> bool
        ensures { result ≡ (occupied_marks K.cmp self.now).required }
    {
        self.map.is_required(&self.key)
    }

    /// Gives the key another value, and returns the value that it held.
    pub fn insert(&mut self, value: V) -> V
        ensures map { IsChanged K.cmp (set_value value) self.old self.new }
        ensures old { (occupied_marks K.cmp self.old).value ≡ Some result }
    {
        match self.map.replace_value(&self.key, value) {
            Some(old) => old,
            None => unreachable!(),
        }
    }

    /// Marks the key as used.
    pub fn mark_used(&mut self)
        ensures { IsChanged K.cmp set_used self.old self.new }
    {
        self.mark(Mark::Used);
    }

    /// Marks the key as required.
    pub fn mark_required(&mut self)
        ensures { IsChanged K.cmp set_required self.old self.new }
    {
        self.mark(Mark::Required);
    }

    /// Sets what merging does with the key, replacing what was set before.
    pub fn set_merge_behavior(&mut self, behavior: MergeBehavior)
        ensures { IsChanged K.cmp (set_behavior behavior) self.old self.new }
    {
        self.mark(Mark::Merges(behavior));
    }

    /// Marks the key.
    fn mark(&mut self, mark: Mark)
        ensures { IsChanged K.cmp (set_mark mark) self.old self.new }
    {
        self.map.mark_entry(&self.key, mark);
    }
}
