//! A view of a key in a map of marks, looked up once and used for several steps.
ghost use Rattle.std.specs.Prelude.{◌≡◌, true, is_some};
ghost use Rattle.cfgmarks.specs.Marks.{marks, value_at};

mod occupied;
mod vacant;

use super::MarkMap;

/// A view of a key, which may hold a value.
#[derive(Drop)]
pub enum Entry<'a, K: Ord, V> {
    /// The key holds a value.
    Occupied(OccupiedEntry<'a, K, V>),
    /// The key holds no value, though it may have marks.
    Vacant(VacantEntry<'a, K, V>),
}

/// A view of a key that holds a value.
#[derive(Drop)]
pub struct OccupiedEntry<'a, K: Ord, V> {
    map: &'a mut MarkMap<K, V>,
    key: K,
    ghost held: { is_some (value_at K.cmp (marks map.now) key) ≡ true },
}

/// A view of a key that holds no value.
#[derive(Drop)]
pub struct VacantEntry<'a, K: Ord, V> {
    map: &'a mut MarkMap<K, V>,
    key: K,
}

impl<K: Ord + Clone, V: Drop> MarkMap<K, V> {
    ghost use Rattle.cfgmarks.specs.Marks.{marks, value_at};
    ghost use Rattle.cfgmarks.specs.MarkEntry.{entry_map, entry_key, is_occupied};

    /// The view of a key. It allocates nothing.
    pub fn entry(&mut self, key: K) -> Entry<'_, K, V>
        ensures same_map { (entry_map result).ghost_name ≡ self.entry.ghost_name }
        ensures unchanged { (entry_map result).now ≡ self.old }
        ensures key { entry_key result ≡ key }
        ensures occupied { is_occupied result ≡ is_some (value_at K.cmp (marks self.old) key) }
    {
        if self.contains_key(&key) {
            Entry::Occupied(OccupiedEntry { map: self, key })
        } else {
            Entry::Vacant(VacantEntry { map: self, key })
        }
    }
}
