//! A stack that contains each number at most once.

ghost use Rattle.std.specs.Prelude.{◌≡◌, ◌<◌, ◌≤◌, true, false, length, replicate, slice_set, IfOk, MatchOption};
ghost use Rattle.cfgsets.specs.Waiting.{NoneWaits, WaitsNoMore};
ghost use Rattle.std.specs.List.Sorted.{IsPermutation};
ghost use Rattle.cfgsets.specs.Table.{bits_on};

use cfgindex::Vob;
use std::alloc::{AllocError, Global};
use std::marker::Model;

/// Numbers below a bound that wait; the last one added comes first. Adding a number that waits already changes nothing.
#[derive(Drop)]
pub struct Waiting {
    bits: Vob,
    stack: Vec<usize>,
}

impl Model for Waiting {
    ghost use Rattle.std.specs.Prelude.{◌≤◌, List, Bool, length, vec_capacity};
    ghost use Rattle.cfgsets.specs.Waiting.{IsStack};

    ghost Value = { List Bool };

    ghost view = { λ x. x.bits };

    ghost invariant = { λ x. IsStack x.bits x.stack.items × (length x.bits ≤ vec_capacity x.stack) };
}

impl Waiting {
    /// An empty stack for numbers below the bound. No later call allocates.
    ///
    /// # Errors
    ///
    /// Out of memory.
    pub fn new(alloc: Global, bound: usize) -> Result<Self, AllocError>
        ensures { IfOk result (λ x. x ≡ replicate bound false) }
    {
        Ok(Waiting {
            bits: Vob::from_elem(alloc, false, bound)?,
            stack: Vec::with_capacity(alloc, bound)?,
        })
    }

    /// Pushes the number, unless it waits already.
    pub fn put(&mut self, number: usize)
        requires { number < length self.old }
        ensures { self.new ≡ slice_set self.old number true }
    {
        if self.bits.set(number, true) {
            self.stack.push_reserved(number);
        }
    }

    /// Pops the number that was pushed last.
    pub fn next(&mut self) -> Option<usize>
        ensures { MatchOption result (NoneWaits self.old × (self.new ≡ self.old))
            (λ n. WaitsNoMore n self.old self.new) }
    {
        let number = self.stack.pop()?;
        self.bits.set(number, false);
        Some(number)
    }
    /// How many numbers wait.
    pub fn len(&self) -> usize
        ensures { result ≡ bits_on self.now }
    {
        self.stack.len()
    }

    /// Reverses the order of all but the first `from` numbers.
    pub fn reverse_from(&mut self, from: usize)
        ensures { self.new ≡ self.old }
    {
        if from < self.stack.len() {
            reverse_part(self.stack.as_mut_slice(), from);
        }
    }
}

/// Reverses the numbers from an index on.
fn reverse_part(numbers: &mut [usize], from: usize)
    requires { from ≤ length numbers.old }
    ensures { IsPermutation numbers.old numbers.new }
{
    numbers[from..].reverse();
}
