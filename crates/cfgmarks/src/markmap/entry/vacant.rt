//! A view of a key that holds no value.
ghost use Rattle.std.specs.Prelude.{◌≡◌, None, IsSome, IfOk, IfErr, OnOk, OnErr};
ghost use Rattle.std.specs.Borrow.{sem};
ghost use Rattle.std.specs.declared.cmp.Ordering.TheVariants.{Equal};
ghost use Rattle.cfgmarks.specs.Marks.{marks, entry_at, changed, set_required, set_behavior, set_value, ChangesAt};
ghost use Rattle.cfgmarks.specs.Marks.{IsFaithful};
ghost use Rattle.cfgmarks.specs.MarkEntry.{occupied_map, occupied_key, vacant_map, vacant_key, IsSamePosition};
ghost use Rattle.cfgmarks.specs.MarkLends.{lends_value, rests_if_refused};

use super::{OccupiedEntry, VacantEntry};
use crate::markmap::{MarkMap, MergeBehavior};
use std::alloc::AllocError;
use std::cmp::Ordering;

impl<'a, K: Ord + Clone, V: Drop> VacantEntry<'a, K, V> {
    /// The key.
    pub fn key(&self) -> &K
        ensures { result.now ≡ vacant_key self.now }
    {
        &self.key
    }

    /// Gives the key the value, and lends it. Only a key without an entry can be refused, if memory runs out or a clone
    /// of it isn't equal to it: then the key and the value are returned. A clone of such a key finds the entry again.
    pub fn insert(self, value: V) -> Result<&'a mut V, (K, V)>
        ensures* writes_back { sem 𝓛 (lends_value K.row V.row K.Ord self.entry result) }
        ensures value { IfOk result (λ lent. lent.now ≡ value) }
        ensures handed_back { IfErr result (λ back. back ≡ (vacant_key self.entry, value)) }
        ensures absent { OnErr result (entry_at K.cmp (vacant_map self.entry) (vacant_key self.entry) ≡ None) }
    {
        let VacantEntry { map, key } = self;
        let index = match ensure_entry(map, key) {
            Ok(index) => index,
            Err(key) => return Err((key, value)),
        };
        match map.put(&index, value) {
            Ok(lent) => Ok(lent),
            Err(value) => Err((index, value)),
        }
    }

    /// Gives the key the value, and returns the occupied entry. Only a key without an entry can be refused, if memory
    /// runs out or a clone of it isn't equal to it: then the key and the value are returned. A clone of such a key
    /// finds the entry again.
    pub fn insert_entry(self, value: V) -> Result<OccupiedEntry<'a, K, V>, (K, V)>
        ensures* rests { sem 𝓛 (rests_if_refused K.row V.row K.Ord self.entry result) }
        ensures map { IfOk result (λ e. occupied_map e
            ≡ changed K.cmp (vacant_map self.entry) (vacant_key self.entry) (set_value value)) }
        ensures key { IfOk result (λ e. K.cmp (vacant_key self.entry) (occupied_key e) ≡ Equal) }
        ensures handed_back { IfErr result (λ back. back ≡ (vacant_key self.entry, value)) }
        ensures absent { OnErr result (entry_at K.cmp (vacant_map self.entry) (vacant_key self.entry) ≡ None) }
    {
        let VacantEntry { map, key } = self;
        let index = match ensure_entry(map, key) {
            Ok(index) => index,
            Err(key) => return Err((key, value)),
        };
        map.replace_value(&index, value);
        Ok(OccupiedEntry { map, key: index })
    }

    /// Marks the key as required. If it has no entry, it gets one with a clone of the key, and only that allocates.
    pub fn mark_required(&mut self) -> Result<(), AllocError>
        requires { IsFaithful K.cmp K.is_clone }
        ensures index { IsSamePosition self.old self.new }
        ensures ok { OnOk result (ChangesAt K.cmp K.is_clone (vacant_key self.old) set_required (vacant_map self.old)
            (vacant_map self.new)) }
        ensures err { OnErr result (vacant_map self.new ≡ vacant_map self.old) }
        ensures absent { OnErr result (entry_at K.cmp (vacant_map self.old) (vacant_key self.old) ≡ None) }
    {
        self.map.mark_required(&self.key)
    }

    /// Sets what merging does with the key, replacing what was set before. If it has no entry, it gets one with a clone
    /// of the key, and only that allocates.
    pub fn set_merge_behavior(&mut self, behavior: MergeBehavior) -> Result<(), AllocError>
        requires { IsFaithful K.cmp K.is_clone }
        ensures index { IsSamePosition self.old self.new }
        ensures ok { OnOk result (ChangesAt K.cmp K.is_clone (vacant_key self.old) (set_behavior behavior)
            (vacant_map self.old) (vacant_map self.new)) }
        ensures err { OnErr result (vacant_map self.new ≡ vacant_map self.old) }
        ensures absent { OnErr result (entry_at K.cmp (vacant_map self.old) (vacant_key self.old) ≡ None) }
    {
        self.map.set_merge_behavior(&self.key, behavior)
    }
}

/// A clone of the key. One that isn't equal to the key is refused as if memory had run out.
fn copy_of<K: Ord + Clone>(key: &K) -> Result<K, AllocError>
    ensures { IfOk result (λ copy. K.cmp key.now copy ≡ Equal) }
{
    let copy = key.clone()?;
    match key.cmp(&copy) {
        Ordering::Equal => Ok(copy),
        _ => Err(AllocError),
    }
}

/// Gives the key an entry if it has none, and returns a key that is equal to it. A refused key is returned.
fn ensure_entry<K: Ord + Clone, V: Drop>(map: &mut MarkMap<K, V>, key: K) -> Result<K, K>
    ensures index { IfOk result (λ index. K.cmp key index ≡ Equal) }
    ensures there { IfOk result (λ index. IsSome (entry_at K.cmp (marks map.new) index)) }
    ensures map { IfOk result (λ index. (f : _)
        → changed K.cmp (marks map.new) index f ≡ changed K.cmp (marks map.old) key f) }
    ensures err { OnErr result (marks map.new ≡ marks map.old) }
    ensures handed_back { IfErr result (λ back. back ≡ key) }
    ensures absent { OnErr result (entry_at K.cmp (marks map.old) key ≡ None) }
{
    if map.has_entry(&key) {
        return Ok(key);
    }
    match copy_of(&key) {
        Ok(copy) => {
            map.add_unmarked(key)?;
            Ok(copy)
        }
        Err(_) => Err(key),
    }
}
