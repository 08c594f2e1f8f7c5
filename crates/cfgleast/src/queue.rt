//! A queue by cost, the cheapest first: of productions whose sums are known, or of rules.

ghost use Rattle.std.specs.Prelude.{◌≡◌, ℕ, ◌≤◌, [], ◌∷◌, All, IfNone, IfSome, OnOk};
ghost use Rattle.std.specs.List.Sorted.{IsPermutation};

use std::alloc::{AllocError, Global};
use std::cmp::Reverse;
use std::collections::BinaryHeap;
use std::marker::Model;

/// Sums of productions, each with its production; or costs of rules, each with its rule.
#[derive(Drop)]
pub struct Queue {
    sums: BinaryHeap<Reverse<(u32, u32)>>,
}

impl Model for Queue {
    ghost use Rattle.std.specs.Prelude.{ℕ, List, map};
    ghost use Rattle.cfgleast.specs.Inner.Queue.{entry_of, IsQueue};
    ghost use Rattle.std.specs.BinaryHeap.{heap_items};

    ghost Value = { List (ℕ × ℕ) };

    ghost view = { λ x. map entry_of (heap_items x.sums) };

    ghost invariant = { λ x. IsQueue (heap_items x.sums) };
}

impl Queue {
    /// An empty queue.
    pub fn new(alloc: Global) -> Self
        ensures { result ≡ [] }
    {
        Queue {
            sums: BinaryHeap::new(alloc),
        }
    }

    /// Adds a production with its sum.
    ///
    /// # Errors
    ///
    /// Out of memory.
    pub fn push(&mut self, sum: u32, production: u32) -> Result<(), AllocError>
        ensures { OnOk result (IsPermutation ((sum, production) ∷ self.old) self.new) }
    {
        self.sums.push(Reverse((sum, production)))?;
        Ok(())
    }

    /// Removes a production with the least sum, and returns the sum and the production.
    pub fn pop(&mut self) -> Option<(u32, u32)>
        ensures out { IfSome result (λ top. IsPermutation self.old (top ∷ self.new)) }
        ensures least { IfSome result (λ top. All (λ entry. top.0 ≤ entry.0) self.new) }
        ensures none { IfNone result (self.old ≡ []) }
    {
        let Reverse(top) = self.sums.pop()?;
        Some(top)
    }
}
