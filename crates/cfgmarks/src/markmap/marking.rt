//! The calls that change a map of marks.
ghost use Rattle.std.specs.Prelude.{◌≡◌, None, Some, IsOk, IsSome, IfErr, OnOk, OnErr, IfOk, is_ok, is_some};
ghost use Rattle.std.specs.Prelude.{if◌then◌else◌};
ghost use Rattle.std.specs.Borrow.{sem};
ghost use Rattle.cfgmarks.specs.MarkLends.{lends_put};

use super::{Mark, MarkMap, Marked, MergeBehavior};
use std::alloc::AllocError;

impl<K: Ord + Clone, V: Drop> MarkMap<K, V> {
    ghost use Rattle.cfgmarks.specs.Marks.{marks, unmarked, entry_at, value_at, changed, without, set_used};
    ghost use Rattle.cfgmarks.specs.Marks.{set_required, set_behavior, set_value, ChangesAt, IsFaithful};
    ghost use Rattle.cfgmarks.specs.Inner.Marking.{set_mark};

    /// Gives the key a value, and returns the value that it held. A stored key and its marks stay. Only a key without
    /// an entry can be refused, if memory runs out: then the key and the value are returned.
    pub fn insert(&mut self, key: K, value: V) -> Result<Option<V>, (K, V)>
        ensures ok { OnOk result (marks self.new ≡ changed K.cmp (marks self.old) key (set_value value)) }
        ensures old { IfOk result (λ old. old ≡ value_at K.cmp (marks self.old) key) }
        ensures err { OnErr result (marks self.new ≡ marks self.old) }
        ensures handed_back { IfErr result (λ back. back ≡ (key, value)) }
        ensures absent { OnErr result (entry_at K.cmp (marks self.old) key ≡ None) }
    {
        match self.contents.entry(key) {
            Ok(entry) => Ok(entry.or_insert(Marked::new()).value.replace(value)),
            Err(refused) => Err((refused.value, value)),
        }
    }

    /// Removes the key's entry, with its marks, and returns the value that it held.
    pub fn remove(&mut self, key: &K) -> Option<V>
        ensures map { marks self.new ≡ without K.cmp (marks self.old) key.now }
        ensures value { result ≡ value_at K.cmp (marks self.old) key.now }
    {
        self.contents.remove(key)?.value
    }

    /// Sets the behavior that an unset one means.
    pub fn set_default_merge_behavior(&mut self, behavior: MergeBehavior)
        ensures { marks self.new ≡ record (marks self.old) { behavior = behavior } }
    {
        self.default_behavior = behavior;
    }

    /// Marks the key as used. A key without an entry gets one, with a clone of the key, and only that allocates.
    pub fn mark_used(&mut self, key: &K) -> Result<(), AllocError>
        requires { IsFaithful K.cmp K.is_clone }
        ensures ok { OnOk result (ChangesAt K.cmp K.is_clone key.now set_used (marks self.old) (marks self.new)) }
        ensures err { OnErr result (marks self.new ≡ marks self.old) }
        ensures absent { OnErr result (entry_at K.cmp (marks self.old) key.now ≡ None) }
    {
        self.mark(key, Mark::Used)
    }

    /// Marks the key as required. A key without an entry gets one, with a clone of the key, and only that allocates.
    pub fn mark_required(&mut self, key: &K) -> Result<(), AllocError>
        requires { IsFaithful K.cmp K.is_clone }
        ensures ok { OnOk result (ChangesAt K.cmp K.is_clone key.now set_required (marks self.old) (marks self.new)) }
        ensures err { OnErr result (marks self.new ≡ marks self.old) }
        ensures absent { OnErr result (entry_at K.cmp (marks self.old) key.now ≡ None) }
    {
        self.mark(key, Mark::Required)
    }

    /// Sets what merging does with the key, replacing what was set before. A key without an entry gets one, with a
    /// clone of the key, and only that allocates.
    pub fn set_merge_behavior(&mut self, key: &K, behavior: MergeBehavior) -> Result<(), AllocError>
        requires { IsFaithful K.cmp K.is_clone }
        ensures ok { OnOk result (ChangesAt K.cmp K.is_clone key.now (set_behavior behavior) (marks self.old)
            (marks self.new)) }
        ensures err { OnErr result (marks self.new ≡ marks self.old) }
        ensures absent { OnErr result (entry_at K.cmp (marks self.old) key.now ≡ None) }
    {
        self.mark(key, Mark::Merges(behavior))
    }

    /// Marks the key if it has an entry, and returns whether it has one.
    pub(super) fn mark_entry(&mut self, key: &K, mark: Mark) -> bool
        ensures found { result ≡ is_some (entry_at K.cmp (marks self.old) key.now) }
        ensures map { marks self.new ≡ (if result then changed K.cmp (marks self.old) key.now
            (set_mark mark) else marks self.old) }
    {
        match self.contents.get_mut(key) {
            Some(marked) => {
                marked.set(mark);
                true
            }
            None => false,
        }
    }

    /// Gives a key that has an entry a value, and returns the value that it held.
    pub(super) fn replace_value(&mut self, key: &K, value: V) -> Option<V>
        requires { IsSome (entry_at K.cmp (marks self.old) key.now) }
        ensures map { marks self.new ≡ changed K.cmp (marks self.old) key.now (set_value value) }
        ensures old { result ≡ value_at K.cmp (marks self.old) key.now }
    {
        self.contents.get_mut(key)?.value.replace(value)
    }

    /// Gives a key that has an entry a value, and lends it. If the key has none, the value is returned.
    pub(super) fn put(&mut self, key: &K, value: V) -> Result<&mut V, V>
        ensures* writes_back { sem 𝓛 (lends_put K.row V.row K.Ord self.entry key.now result) }
        ensures value { IfOk result (λ lent. lent.now ≡ value) }
        ensures found { is_ok result ≡ is_some (entry_at K.cmp (marks self.old) key.now) }
        ensures handed_back { IfErr result (λ back. back ≡ value) }
    {
        match self.contents.get_mut(key) {
            Some(marked) => Ok(marked.lend_value(value)),
            None => Err(value),
        }
    }

    /// Adds an entry without marks for a key that has none. A refused key is returned.
    pub(super) fn add_unmarked(&mut self, key: K) -> Result<(), K>
        requires { entry_at K.cmp (marks self.old) key ≡ None }
        ensures ok { OnOk result (marks self.new ≡ changed K.cmp (marks self.old) key (λ _. unmarked)) }
        ensures err { OnErr result (marks self.new ≡ marks self.old) }
        ensures handed_back { IfErr result (λ back. back ≡ key) }
    {
        match self.contents.insert(key, Marked::new()) {
            Ok(_) => Ok(()),
            Err(refused) => Err(refused.value.0),
        }
    }

    /// Marks the key. If it has no entry, it gets one with a clone of it.
    fn mark(&mut self, key: &K, mark: Mark) -> Result<(), AllocError>
        requires { IsFaithful K.cmp K.is_clone }
        ensures ok { OnOk result (ChangesAt K.cmp K.is_clone key.now (set_mark mark) (marks self.old)
            (marks self.new)) }
        ensures err { OnErr result (marks self.new ≡ marks self.old) }
        ensures absent { OnErr result (entry_at K.cmp (marks self.old) key.now ≡ None) }
    {
        if self.mark_entry(key, mark) {
            return Ok(());
        }
        let copy = key.clone()?;
        let mut marked = Marked::new();
        marked.set(mark);
        self.contents.insert(copy, marked)?;
        Ok(())
    }
}
