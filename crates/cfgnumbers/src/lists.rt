//! Concatenated lists.

ghost use Rattle.std.specs.Prelude.{◌≡◌, ◌<◌, ◌∷◌, ◌++◌, [], Some, length, slice_get, IfOk, OnErr, OnOk};

use std::alloc::{AllocError, Global};
use std::marker::Model;

/// Concatenated lists, with the indices at which they end: however many lists there are, they use two allocations.
#[derive(Drop)]
pub struct Lists<T: Copy> {
    items: Vec<T>,
    ends: Vec<usize>,
}

impl<T: Copy> Model for Lists<T> {
    ghost use Rattle.std.specs.Prelude.{List, length};
    ghost use Rattle.cfgnumbers.specs.Inner.Lists.{AreEnds, lists_between};

    ghost Value = { List (List T) };

    ghost view = { λ x. lists_between x.items.items 0 x.ends.items };

    ghost invariant = { λ x. AreEnds 0 (length x.items.items) x.ends.items };
}

impl<T: Copy> Lists<T> {
    /// No lists, with room for this many of three items each.
    ///
    /// # Errors
    ///
    /// Out of memory.
    pub fn with_capacity(alloc: Global, lists: usize) -> Result<Self, AllocError>
        ensures { IfOk result (λ x. x ≡ []) }
    {
        Ok(Lists {
            items: Vec::with_capacity(alloc, lists.saturating_mul(3))?,
            ends: Vec::with_capacity(alloc, lists)?,
        })
    }

    /// The list with this index.
    pub fn get(&self, index: usize) -> &[T]
        requires { index < length self.now }
        ensures { slice_get self.now index ≡ Some result.now }
    {
        let end = self.ends[index];
        if index == 0 {
            &self.items[..end]
        } else {
            &self.items[self.ends[index - 1]..end]
        }
    }

    /// Adds a list after the others.
    ///
    /// # Errors
    ///
    /// Out of memory.
    pub fn push(&mut self, list: &[T]) -> Result<(), AllocError>
        ensures ok { OnOk result (self.new ≡ self.old ++ list.now ∷ []) }
        ensures err { OnErr result (self.new ≡ self.old) }
    {
        self.ends.reserve(1)?;
        self.items.extend_from_slice(list)?;
        self.ends.push_reserved(self.items.len());
        Ok(())
    }
}
