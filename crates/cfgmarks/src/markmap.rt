//! A map whose keys have marks: whether a key was used, whether it is required, and what merging does with it. A key
//! may have marks without a value.
ghost use Rattle.std.specs.Prelude.{◌≡◌, [], is_some};
ghost use Rattle.std.specs.Option.{option_copied};
ghost use Rattle.cfgmarks.specs.declared.markmap.behavior.MergeBehavior.TheVariants.{MutuallyExclusive};

mod behavior;
mod entry;
mod fault;
mod iter;
mod lists;
mod marked;
mod marking;
mod merge;

pub use behavior::MergeBehavior;
pub use entry::{Entry, OccupiedEntry, VacantEntry};
pub use fault::{MergeError, MergeFault};
pub use iter::{Keys, MarkMapIterRef};
use marked::{Mark, Marked, behavior_word};
use std::alloc::Global;
use std::collections::BTreeMap;

/// A map from keys to marks and values, in the order of its keys.
#[derive(Debug, Drop)]
pub struct MarkMap<K: Ord, V> {
    contents: BTreeMap<K, Marked<V>>,
    default_behavior: MergeBehavior,
    alloc: Global,
}

impl<K: Ord + Clone, V: Drop> MarkMap<K, V> {
    ghost use Rattle.cfgmarks.specs.Marks.{marks, entry_at, marks_at, mark_word, value_at};

    /// A map without keys, in which an unset behavior means `MutuallyExclusive`.
    pub fn new(alloc: Global) -> Self
        ensures { marks result ≡ record { entries = []; behavior = MutuallyExclusive } }
    {
        MarkMap {
            contents: BTreeMap::new(alloc),
            default_behavior: MergeBehavior::MutuallyExclusive,
            alloc,
        }
    }

    /// The key's value.
    pub fn get(&self, key: &K) -> Option<&V>
        ensures { option_copied result ≡ value_at K.cmp (marks self.now) key.now }
    {
        self.contents.get(key)?.value.as_ref()
    }

    /// Whether the key holds a value.
    pub fn contains_key(&self, key: &K) -> bool
        ensures { result ≡ is_some (value_at K.cmp (marks self.now) key.now) }
    {
        self.get(key).is_some()
    }

    /// Whether the key is marked as used.
    pub fn is_used(&self, key: &K) -> bool
        ensures { result ≡ (marks_at K.cmp (marks self.now) key.now).used }
    {
        match self.contents.get(key) {
            Some(marked) => marked.used,
            None => false,
        }
    }

    /// Whether the key is marked as required.
    pub fn is_required(&self, key: &K) -> bool
        ensures { result ≡ (marks_at K.cmp (marks self.now) key.now).required }
    {
        match self.contents.get(key) {
            Some(marked) => marked.required,
            None => false,
        }
    }

    /// Whether the key has an entry: marks or a value.
    fn has_entry(&self, key: &K) -> bool
        ensures { result ≡ is_some (entry_at K.cmp (marks self.now) key.now) }
    {
        self.contents.contains_key(key)
    }

    /// The key's marks as one number.
    fn mark_word(&self, key: &K) -> u16
        ensures { result ≡ mark_word (marks_at K.cmp (marks self.now) key.now) }
    {
        match self.contents.get(key) {
            Some(marked) => marked.word(),
            None => 0,
        }
    }
}

impl<K: Ord, V: PartialEq> PartialEq for MarkMap<K, V> {
    ghost use Rattle.std.specs.Prelude.{◌↔◌, IsTrue};
    ghost use Rattle.cfgmarks.specs.Marks.{marks};
    ghost use Rattle.cfgmarks.specs.MarkSame.{IsIdentity, same_marks, same_marks_per};
    ghost use Rattle.std.specs.Cmp.{on_per};

    ghost eq = { λ m n. same_marks K.eq V.eq (marks m) (marks n) };

    ghost laws = { on_per marks (same_marks_per K.PartialEq.laws V.laws) };

    fn eq(&self, other: &Self) -> bool
        ensures value { result ≡ same_marks K.eq V.eq (marks self.now) (marks other.now) }
        ensures same { IsIdentity K.eq → IsIdentity V.eq
            → (IsTrue result ↔ (marks self.now ≡ marks other.now)) }
    {
        self.contents == other.contents
            && behavior_word(Some(self.default_behavior))
                == behavior_word(Some(other.default_behavior))
    }
}

impl<K: Ord, V: Eq> Eq for MarkMap<K, V> {
    ghost use Rattle.cfgmarks.specs.Marks.{marks};
    ghost use Rattle.cfgmarks.specs.MarkSame.{same_marks_equiv};
    ghost use Rattle.std.specs.Cmp.{on_equiv};

    ghost laws = { on_equiv marks (same_marks_equiv K.Eq.laws V.Eq.laws) };
}
