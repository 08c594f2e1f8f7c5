//! The indices of a grammar's rules, productions and tokens, in order.

ghost use Rattle.std.specs.Prelude.{◌≡◌, ◌-◌, ◌≤◌, ℕ};
ghost use Rattle.std.specs.Iterator.{at_most};
ghost use Rattle.cfgyacc.specs.Counting.{CountsUp, YieldsNumbersInOrder};

use cfgindex::{PIdx, RIdx, Storage, TIdx, to_storage};
use std::marker::{Model, PhantomData};
use std::ops::Range;

/// An index, which represents a number.
pub trait Index: Sized {
    ghost MAX: { ℕ };

    ghost number: { Self → ℕ };

    /// The index that represents the number `index`.
    fn at(index: usize) -> Self
        requires { index ≤ MAX }
        ensures { number result ≡ index };
}

impl<S: Storage> Index for PIdx<S> {
    ghost MAX = { S.MAX };

    ghost number = { λ x. S.number x.0 };

    fn at(index: usize) -> Self {
        PIdx(to_storage(index))
    }
}

impl<S: Storage> Index for RIdx<S> {
    ghost MAX = { S.MAX };

    ghost number = { λ x. S.number x.0 };

    fn at(index: usize) -> Self {
        RIdx(to_storage(index))
    }
}

impl<S: Storage> Index for TIdx<S> {
    ghost MAX = { S.MAX };

    ghost number = { λ x. S.number x.0 };

    fn at(index: usize) -> Self {
        TIdx(to_storage(index))
    }
}

/// Indices in order: those of the numbers in a range.
#[derive(Drop)]
pub struct IdxIter<I: Index> {
    left: Range<usize>,
    of: PhantomData<I>,
}

/// The indices of a grammar's productions, from the first to the last.
pub type PIdxIter<S> = IdxIter<PIdx<S>>;

/// The indices of a grammar's rules, from the first to the last.
pub type RIdxIter<S> = IdxIter<RIdx<S>>;

/// The indices of a grammar's tokens, from the first to the last, which is that of the end token.
pub type TIdxIter<S> = IdxIter<TIdx<S>>;

impl<I: Index> Model for IdxIter<I> {
    ghost use Rattle.std.specs.Prelude.{ℕ, ◌≤◌};
    ghost use Rattle.std.specs.declared.ops.Range.{Range};

    ghost Value = { Range ℕ };

    ghost view = { λ x. x.left };

    ghost invariant = { λ x. x.left.end ≤ I.MAX };
}

impl<I: Index> IdxIter<I> {
    /// The indices of the numbers from 0 up to, and not including, `end`.
    pub(super) fn new(end: usize) -> Self
        requires { end ≤ I.MAX }
        ensures value { result ≡ record { start = 0; end = end } }
        ensures runs { YieldsNumbersInOrder I.number }
    {
        IdxIter {
            left: 0..end,
            of: PhantomData,
        }
    }
}

impl<I: Index> Iterator for IdxIter<I> {
    type Item = I;

    ghost next_gives = { CountsUp I.number };

    ghost remaining = { λ x. at_most (x.end - x.start) };

    fn next(&mut self) -> Option<I> {
        let index = self.left.next()?;
        Some(I::at(index))
    }

    fn size_hint(&self) -> (usize, Option<usize>)
        ensures { result ≡ (self.now.end - self.now.start, Some (self.now.end - self.now.start)) }
    {
        let len = self.left.len();
        (len, Some(len))
    }
}
