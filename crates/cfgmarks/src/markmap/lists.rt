//! The keys that were given but not used, and those that are required but not given.
ghost use Rattle.std.specs.Prelude.{◌≡◌, ◌≢◌, [], map, IfOk, OnErr};
ghost use Rattle.std.specs.List.{AllZip};

use super::MarkMap;
use std::alloc::{AllocError, Global};

impl<K: Ord + Clone, V: Drop> MarkMap<K, V> {
    ghost use Rattle.cfgmarks.specs.Marks.{marks, unused_keys, missing_keys};

    /// Clones of the keys that hold a value and aren't marked as used, in order. It allocates only if there is one.
    pub fn unused(&self, alloc: Global) -> Result<Vec<K>, AllocError>
        ensures ok { IfOk result (λ keys. AllZip K.is_clone (unused_keys (marks self.now)) keys.items) }
        ensures not_empty { OnErr result (unused_keys (marks self.now) ≢ []) }
    {
        let mut keys = Vec::new(alloc);
        for (key, marked) in &self.contents {
            if marked.is_unused() {
                keys.push(key.clone()?)?;
            }
        }
        Ok(keys)
    }

    /// The keys that are required and hold no value, in order. It allocates only if there is one.
    pub fn missing(&self, alloc: Global) -> Result<Vec<&K>, AllocError>
        ensures ok { IfOk result (λ keys. map (λ key. key.now) keys.items ≡ missing_keys (marks self.now)) }
        ensures not_empty { OnErr result (missing_keys (marks self.now) ≢ []) }
    {
        let mut keys = Vec::new(alloc);
        for (key, marked) in &self.contents {
            if marked.is_missing() {
                keys.push(key)?;
            }
        }
        Ok(keys)
    }
}
