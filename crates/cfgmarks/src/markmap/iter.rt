//! Iteration over the keys that hold a value.
ghost use Rattle.std.specs.Prelude.{◌≡◌, length};
ghost use Rattle.std.specs.Iterator.{at_most};
ghost use Rattle.std.specs.List.Sorted.{IsStrictlySortedBy};
ghost use Rattle.std.specs.Map.{keys_of};
ghost use Rattle.std.specs.Map.Iter.{TakesFirst, deref, deref_pair};

use super::{MarkMap, Marked};
use std::collections::btree_map;
use std::marker::Model;

/// The keys that hold a value, each with its value, in the order of the keys.
#[derive(Drop)]
pub struct MarkMapIterRef<'a, K, V> {
    entries: btree_map::Iter<'a, K, Marked<V>>,
}

impl<'a, K, V> Model for MarkMapIterRef<'a, K, V> {
    ghost use Rattle.std.specs.Prelude.{List};
    ghost use Rattle.cfgmarks.specs.Marks.{held_among};

    ghost Value = { List (K × V) };

    ghost view = { λ a. held_among a.entries };
}

impl<'a, K, V> Iterator for MarkMapIterRef<'a, K, V> {
    type Item = (&'a K, &'a V);

    ghost next_gives = { TakesFirst deref_pair };

    ghost remaining = { λ s. at_most (length s) };

    fn next(&mut self) -> Option<(&'a K, &'a V)> {
        while let Some((key, marked)) = self.entries.next() {
            if let Some(value) = &marked.value {
                return Some((key, value));
            }
        }
        None
    }
}

/// The keys that hold a value, in order.
#[derive(Drop)]
pub struct Keys<'a, K, V> {
    entries: MarkMapIterRef<'a, K, V>,
}

impl<'a, K, V> Model for Keys<'a, K, V> {
    ghost use Rattle.std.specs.Prelude.{List};
    ghost use Rattle.std.specs.Map.{keys_of};

    ghost Value = { List K };

    ghost view = { λ a. keys_of a.entries };
}

impl<'a, K, V> Iterator for Keys<'a, K, V> {
    type Item = &'a K;

    ghost next_gives = { TakesFirst deref };

    ghost remaining = { λ s. at_most (length s) };

    fn next(&mut self) -> Option<&'a K> {
        match self.entries.next() {
            Some((key, _)) => Some(key),
            None => None,
        }
    }
}

impl<'a, K: Ord, V> IntoIterator for &'a MarkMap<K, V> {
    ghost use Rattle.cfgmarks.specs.Marks.{marks, held};
    ghost use Rattle.std.specs.Prelude.{◌≡◌};
    ghost use Rattle.std.specs.List.Sorted.{IsStrictlySortedBy};
    ghost use Rattle.std.specs.Map.{keys_of};

    type Item = (&'a K, &'a V);

    type IntoIter = MarkMapIterRef<'a, K, V>;

    ghost into_iter_gives = { λ m r. (r ≡ held (marks m.now)) × IsStrictlySortedBy K.cmp (keys_of r) };

    fn into_iter(self) -> MarkMapIterRef<'a, K, V> {
        MarkMapIterRef {
            entries: self.contents.iter(),
        }
    }
}

impl<K: Ord + Clone, V: Drop> MarkMap<K, V> {
    ghost use Rattle.cfgmarks.specs.Marks.{marks, held};

    /// The keys that hold a value, in order.
    pub fn keys(&self) -> Keys<'_, K, V>
        ensures rest { result ≡ keys_of (held (marks self.now)) }
        ensures ordered { IsStrictlySortedBy K.cmp result }
    {
        Keys {
            entries: self.into_iter(),
        }
    }
}
