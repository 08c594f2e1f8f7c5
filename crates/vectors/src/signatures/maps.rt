//! The marked map, its entries, and why merging stops.

ghost use Rattle.cfgrammar.specs.Marks.{IsFaithful};

use cfgrammar::markmap::{
    MarkMap, MergeBehavior, MergeError, MergeFault, OccupiedEntry, VacantEntry,
};
use std::alloc::{AllocError, Global};

/// What a map has of a key.
pub fn held<'a>(
    map: &'a MarkMap<u32, String>,
    key: &u32,
) -> (bool, Option<&'a String>, bool, bool) {
    (
        map.contains_key(key),
        map.get(key),
        map.is_used(key),
        map.is_required(key),
    )
}

/// The keys of a map that are marked as only one of two marks asks.
pub fn keys_of(
    alloc: Global,
    map: &MarkMap<u32, String>,
) -> (Result<Vec<u32>, AllocError>, Result<Vec<&u32>, AllocError>) {
    (map.unused(alloc), map.missing(alloc))
}

/// What a key's entry with a value is, once it has both marks and another value.
pub fn occupied(
    entry: &mut OccupiedEntry<'_, u32, String>,
    value: String,
    behavior: MergeBehavior,
) -> (String, u16, bool, bool) {
    entry.mark_used();
    entry.mark_required();
    entry.set_merge_behavior(behavior);
    (
        entry.insert(value),
        entry.get_mark(),
        entry.is_used(),
        entry.is_required(),
    )
}

/// The value of an entry.
pub fn value_of<'a>(entry: &'a OccupiedEntry<'_, u32, String>) -> &'a String {
    entry.get()
}

/// Marks an entry without a value.
pub fn vacant<'a, K: Ord + Clone + Drop>(
    entry: &'a mut VacantEntry<'_, K, String>,
    behavior: MergeBehavior,
) -> (Result<(), AllocError>, Result<(), AllocError>, &'a K)
    requires { IsFaithful K.cmp K.is_clone }
{
    (
        entry.mark_required(),
        entry.set_merge_behavior(behavior),
        entry.key(),
    )
}

/// The value that an entry is given.
pub fn filled<'a>(
    entry: VacantEntry<'a, u32, String>,
    value: String,
) -> Result<&'a mut String, (u32, String)> {
    entry.insert(value)
}

/// The entry that has been given a value.
pub fn entered<'a>(
    entry: VacantEntry<'a, u32, String>,
    value: String,
) -> Result<OccupiedEntry<'a, u32, String>, (u32, String)> {
    entry.insert_entry(value)
}

/// The key and the value of a conflict.
pub fn conflicting<K>(conflict: &MergeError<K, Box<u32>>) -> (&K, u32) {
    let MergeError::Exclusivity(key, value) = conflict;
    (key, **value)
}

/// Whether merging stopped at a conflict.
pub fn is_conflict(fault: &MergeFault<u32, String, ()>) -> bool {
    match fault {
        MergeFault::Conflict(_) => true,
        MergeFault::Convert(..) | MergeFault::OutOfMemory => false,
    }
}
