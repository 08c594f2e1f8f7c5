//! Rows on maps whose keys have marks. Keys are letters, by their places in the alphabet.

ghost use Rattle.std.specs.Cmp.{nat_cmp_total, tied_itself};
ghost use Rattle.cfgrammar.specs.Marks.{IsFaithful};

use crate::page::Page;
use cfgrammar::markmap::{Entry, MarkMap, MergeBehavior, MergeFault, VacantEntry};
use std::alloc::AllocError;

const A: u32 = 1;

const B: u32 = 2;

const C: u32 = 3;

const X: u32 = 24;

const Z: u32 = 26;

/// Keys that equal their clones.
trait Key: Ord + Clone + Drop {
    ghost faithful: { IsFaithful Self.cmp Self.is_clone };
}

impl Key for u32 {
    ghost faithful = { λ number copy same. rw same (tied_itself nat_cmp_total number) };
}

/// What a key is marked with.
#[derive(Clone, Copy)]
enum Mark {
    Used,
    Required,
    Behavior(MergeBehavior),
}

/// Marks a key.
fn add_mark<K: Key>(map: &mut MarkMap<K, u32>, key: &K, mark: Mark) -> Result<(), AllocError> {
    match mark {
        Mark::Used => map.mark_used(key),
        Mark::Required => map.mark_required(key),
        Mark::Behavior(behavior) => map.set_merge_behavior(key, behavior),
    }
}

/// Gives a key without a value the behavior Ours.
fn mark_vacant<K: Key>(entry: &mut VacantEntry<'_, K, u32>) -> Result<(), AllocError> {
    entry.set_merge_behavior(MergeBehavior::Ours)
}

/// Writes the rows.
pub(crate) fn write_marks(page: &mut Page) {
    let (mut map, mut vacant) = (MarkMap::new(page.alloc), MarkMap::new(page.alloc));
    writeln!(page, "\n== marked-keys");
    write_marked(page, &mut map);
    write_entered(page, &mut vacant);
    let (mut map, mut taken) = (MarkMap::new(page.alloc), MarkMap::new(page.alloc));
    writeln!(page, "\n== merge-defaults");
    write_defaults(page, &mut map);
    write_joined(page, &mut taken);
    let (mut map, mut empty) = (MarkMap::new(page.alloc), MarkMap::new(page.alloc));
    writeln!(page, "\n== merge-exclusive");
    write_exclusive(page, &mut map);
    writeln!(page, "\n== merge-convert");
    write_converted(page, &mut empty);
    write_kept(page, Some(MergeBehavior::Ours));
    write_kept(page, None);
}

/// Marks a key, gives it a value and takes that away; then gives another one a value while the first is only marked.
fn write_marked(page: &mut Page, map: &mut MarkMap<u32, u32>) {
    let (used, inserted) = (add_mark(map, &A, Mark::Used), map.insert(A, 10));
    writeln!(page, "mark_used {used:?}, insert {inserted:?}");
    write_map(page, map);
    let (removed, is_used) = (map.remove(&A), map.is_used(&A));
    writeln!(page, "remove {removed:?}, is_used {is_used}");
    let (used, inserted) = (add_mark(map, &A, Mark::Used), map.insert(B, 10));
    writeln!(page, "mark_used {used:?}, insert {inserted:?}");
    write_map(page, map);
}

/// Marks a key, and gives it a behavior and a value by its vacant entry.
fn write_entered(page: &mut Page, map: &mut MarkMap<u32, u32>) {
    let used = add_mark(map, &A, Mark::Used);
    let set = match map.entry(A) {
        Entry::Vacant(mut entry) => (mark_vacant(&mut entry), entry.insert_entry(10).is_ok()),
        Entry::Occupied(_) => (Ok(()), false),
    };
    writeln!(page, "mark_used {used:?}, set and insert_entry {set:?}");
    write_map(page, map);
}

/// A default behavior, and one of a key.
fn write_defaults(page: &mut Page, map: &mut MarkMap<u32, u32>) {
    let mut other: MarkMap<u32, u32> = MarkMap::new(page.alloc);
    map.set_default_merge_behavior(MergeBehavior::Ours);
    let inserted = [map.insert(A, 10), map.insert(B, 10)];
    let theirs = [
        other.insert(X, 20),
        other.insert(B, 20),
        other.insert(A, 20),
    ];
    let set = add_mark(map, &B, Mark::Behavior(MergeBehavior::Theirs));
    writeln!(page, "insert {inserted:?} and {theirs:?}, set {set:?}");
    write_merged(page, map, other);
}

/// Two values and no behavior; then theirs is required without a value; and then the marks of the entry.
fn write_joined(page: &mut Page, map: &mut MarkMap<u32, u32>) {
    let (mut other, mut required) = (MarkMap::new(page.alloc), MarkMap::new(page.alloc));
    let inserted = [map.insert(A, 10), other.insert(A, 20)];
    writeln!(page, "insert {inserted:?}");
    write_merged(page, map, other);
    let set = add_mark(map, &A, Mark::Behavior(MergeBehavior::Theirs));
    let marked = add_mark(&mut required, &A, Mark::Required);
    writeln!(page, "set {set:?}, mark_required {marked:?}");
    write_merged(page, map, required);
    let used = add_mark(map, &A, Mark::Used);
    write_map(page, map);
    let set = add_mark(map, &A, Mark::Behavior(MergeBehavior::Ours));
    writeln!(page, "mark_used {used:?}, set {set:?}");
    write_map(page, map);
}

/// A required key without a value, and a key that isn't there, against keys that are used and Ours.
fn write_exclusive(page: &mut Page, map: &mut MarkMap<u32, u32>) {
    let mut other = MarkMap::new(page.alloc);
    let required = add_mark(map, &A, Mark::Required);
    writeln!(page, "mark_required {required:?}");
    for key in [A, Z] {
        let inserted = other.insert(key, 10);
        let used = add_mark(&mut other, &key, Mark::Used);
        let set = add_mark(&mut other, &key, Mark::Behavior(MergeBehavior::Ours));
        writeln!(
            page,
            "theirs: insert {inserted:?}, mark_used {used:?}, set {set:?}"
        );
    }
    write_merged(page, map, other);
}

/// Merges three keys, of which the value of the second isn't converted.
fn write_converted(page: &mut Page, map: &mut MarkMap<u32, u32>) {
    let mut other = MarkMap::new(page.alloc);
    let inserted = [other.insert(A, 1), other.insert(B, 2), other.insert(C, 3)];
    writeln!(page, "theirs: insert {inserted:?}");
    write_merged(page, map, other);
}

/// Does so with a map that holds the second, and that may have a default behavior.
fn write_kept(page: &mut Page, default: Option<MergeBehavior>) {
    let mut map = MarkMap::new(page.alloc);
    if let Some(behavior) = default {
        map.set_default_merge_behavior(behavior);
    }
    let inserted = map.insert(B, 9);
    writeln!(page, "default {default:?}, insert {inserted:?}");
    write_converted(page, &mut map);
}

/// Merges a map into another, where 2 isn't converted.
fn merged(
    map: &mut MarkMap<u32, u32>,
    other: MarkMap<u32, u32>,
) -> Result<(), MergeFault<u32, u32, &'static str>> {
    map.merge_from(other, |value: u32| {
        if value == 2 {
            Err("not converted")
        } else {
            Ok(value)
        }
    })
}

/// Merges a map into another, and writes what is then in that.
fn write_merged(page: &mut Page, map: &mut MarkMap<u32, u32>, other: MarkMap<u32, u32>) {
    let merged = merged(map, other);
    writeln!(page, "merge {merged:?}");
    write_map(page, map);
}

/// Writes the keys that a map holds, and the value and the mark of each.
fn write_map(page: &mut Page, map: &mut MarkMap<u32, u32>) {
    write!(page, "holds");
    for key in map.keys() {
        write!(page, " {key}");
    }
    for key in [A, B, C, X, Z] {
        if let Entry::Occupied(entry) = map.entry(key) {
            let (value, mark) = (*entry.get(), entry.get_mark());
            write!(page, "; {key}: {value}, mark {mark}");
        }
    }
    page.write_fmt('\n');
}
