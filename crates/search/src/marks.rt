//! The marks of a search.

ghost use Rattle.std.specs.Prelude.{◌≡◌, ◌<◌, Bool, List, Some, false, length, not, slice_get, slice_index_or};
ghost use Rattle.std.specs.Prelude.{IfOk, IsOk, OnErr, OnOk, slice_set, true};
ghost use Rattle.search.specs.Inner.Marks.{bits_at};

use cfgindex::Vob;
use std::alloc::AllocError;
use std::collections::BTreeSet;

/// Marks on some of the numbers below a bound.
pub trait Marks: Drop {
    // A bit for each number.
    ghost bits: { Self → List Bool };

    /// Whether the number is marked.
    fn is_marked(&self, number: usize) -> bool
        ensures { result ≡ slice_index_or (bits self.now) number false };

    /// Marks the number, and returns whether it was not marked before.
    ///
    /// # Errors
    ///
    /// `AllocError` if an allocation fails. It doesn't for a number that is marked.
    fn mark(&mut self, number: usize) -> Result<bool, AllocError>
        requires { number < length (bits self.old) }
        ensures bits { OnOk result (bits self.new ≡ slice_set (bits self.old) number true) }
        ensures changed { IfOk result (λ fresh. slice_get (bits self.old) number ≡ Some (not fresh)) }
        ensures refused { OnErr result (slice_get (bits self.old) number ≡ Some false) };
}

/// A bit for each number.
pub type Bits = Vob;

impl Marks for Bits {
    ghost bits = { λ bits. bits };

    fn is_marked(&self, number: usize) -> bool {
        self.get(number).unwrap_or(false)
    }

    /// Allocates nothing.
    fn mark(&mut self, number: usize) -> Result<bool, AllocError>
        requires { number < length self.old }
        ensures bits { OnOk result (self.new ≡ slice_set self.old number true) }
        ensures changed { IfOk result (λ fresh. slice_get self.old number ≡ Some (not fresh)) }
        ensures succeeds { IsOk result }
    {
        Ok(self.set(number, true))
    }
}

/// The marked numbers, all below a bound.
#[derive(Drop)]
pub struct Few {
    pub(crate) bound: usize,
    pub(crate) numbers: BTreeSet<usize>,
}

impl Marks for Few {
    ghost bits = { λ few. bits_at few.bound few.numbers };

    fn is_marked(&self, number: usize) -> bool {
        number < self.bound && self.numbers.contains(&number)
    }

    fn mark(&mut self, number: usize) -> Result<bool, AllocError> {
        Ok(self.numbers.insert(number)?)
    }
}
