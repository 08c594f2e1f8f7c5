//! Owners of values of any type, so that no other function drops a value of a large type.
#![tactic(auto)]

ghost use Rattle.std.specs.Prelude.{◌≡◌, ◌⊎◌, Err, IfErr, IfOk, IsErr, IsOk, Ok, OnErr, OnOk};
ghost use Rattle.std.specs.Fn.{FnOnceReturnsAt, FnOnceTakesAt};

use std::alloc::AllocError;

/// What `next` returns for the value, or the error instead of it.
pub fn lend<T: Drop, E, R, F: FnOnce(&T) -> Result<R, E>>(
    made: Result<T, E>,
    next: F,
) -> Result<R, E>
    requires { IfOk made (FnOnceTakesAt F.FnOnce next) }
    ensures lent { IfOk made (λ value. FnOnceReturnsAt F.FnOnce next value result) }
    ensures refused { IfErr made (λ fault. result ≡ Err fault) }
{
    match made {
        Ok(value) => next(&value),
        Err(fault) => Err(fault),
    }
}

/// What is made a copy part by part, in place: if a part fails, there are no other parts to drop.
pub trait Refill: Drop {
    // Holds of a value and of one that was made its copy.
    ghost is_copy: { Self → Self → Type 0 };

    // Holds of a value whose copies allocate nothing.
    ghost is_infallible: { Self → Type 0 } = { λ _. ⊥ };

    /// Makes this a copy.
    ///
    /// # Errors
    ///
    /// `AllocError` if an allocation fails.
    fn refill(&mut self, from: &Self) -> Result<(), AllocError>
        ensures copied { OnOk result (is_copy from.now self.new) }
        ensures succeeds { is_infallible from.now → IsOk result };
}

/// A copy, made in place of this value.
///
/// # Errors
///
/// `AllocError` if an allocation fails.
pub fn refilled<T: Refill>(mut copy: T, from: &T) -> Result<T, AllocError>
    ensures copied { IfOk result (T.is_copy from.now) }
    ensures succeeds { T.is_infallible from.now → IsOk result }
{
    copy.refill(from)?;
    Ok(copy)
}

/// All of their values, or an error. A caller that asks for all its parts before it looks at any of them has one error
/// exit, on which it owns nothing.
///
/// # Errors
///
/// `AllocError` if one of them is that.
pub fn all<A: Drop, B: Drop, C: Drop, D: Drop>(
    a: Result<A, AllocError>,
    b: Result<B, AllocError>,
    c: Result<C, AllocError>,
    d: Result<D, AllocError>,
) -> Result<(A, B, C, D), AllocError>
    ensures made { IfOk result (λ all. (a ≡ Ok all.0) × (b ≡ Ok all.1) × (c ≡ Ok all.2) × (d ≡ Ok all.3)) }
    ensures refused { OnErr result (IsErr a ⊎ (IsErr b ⊎ (IsErr c ⊎ IsErr d))) }
{
    Ok((a?, b?, c?, d?))
}
