//! The types of numbers that indices are stored as.

ghost use Rattle.std.specs.Prelude.{◌≡◌, ◌^◌, ◌<◌, ◌≤◌, ◌↔◌, ℕ, IsSome, IfSome, refl};
ghost use Rattle.std.specs.Ordering.{nat_cmp};

use std::hash::Hash;

/// A type whose values store the numbers from 0 up to `MAX`, each number once.
pub trait Storage: Copy + Ord + Hash {
    /// The greatest number that can be stored.
    const MAX: usize;

    ghost MAX: { ℕ };

    // The number that a value stores.
    ghost number: { Self → ℕ };

    /// The number that the value stores.
    fn to_usize(self) -> usize
        ensures value { result ≡ number self }
        ensures range { result ≤ MAX }
        ensures limit { MAX < 2 ^ 32 };

    /// The value that stores `n`, or `None` if `n` is greater than `MAX`.
    fn from_usize(n: usize) -> Option<Self>
        ensures fits { IsSome result ↔ (n ≤ MAX) }
        ensures value { IfSome result (λ x. number x ≡ n) };

    // Two values of the same number are the same.
    ghost same: { (x y : Self) → number x ≡ number y → x ≡ y };

    // Values are ordered like their numbers.
    ghost ordered: { (x y : Self) → Self.cmp x y ≡ nat_cmp (number x) (number y) };
}

/// The value that stores a number.
pub fn to_storage<S: Storage>(number: usize) -> S
    requires { number ≤ S.MAX }
    ensures { S.number result ≡ number }
{
    S::from_usize(number).unwrap()
}

impl Storage for u8 {
    const MAX: usize = u8::MAX as usize;

    ghost MAX = { 255 };

    ghost number = { λ x. x };

    ghost same = { λ x y e. e };

    ghost ordered = { λ x y. refl };

    fn to_usize(self) -> usize {
        usize::from(self)
    }

    fn from_usize(n: usize) -> Option<u8> {
        u8::try_from(n).ok()
    }
}

impl Storage for u16 {
    const MAX: usize = u16::MAX as usize;

    ghost MAX = { 65535 };

    ghost number = { λ x. x };

    ghost same = { λ x y e. e };

    ghost ordered = { λ x y. refl };

    fn to_usize(self) -> usize {
        usize::from(self)
    }

    fn from_usize(n: usize) -> Option<u16> {
        u16::try_from(n).ok()
    }
}

impl Storage for u32 {
    const MAX: usize = u32::MAX as usize;

    ghost MAX = { 4294967295 };

    ghost number = { λ x. x };

    ghost same = { λ x y e. e };

    ghost ordered = { λ x y. refl };

    fn to_usize(self) -> usize {
        self as usize
    }

    fn from_usize(n: usize) -> Option<u32> {
        u32::try_from(n).ok()
    }
}
