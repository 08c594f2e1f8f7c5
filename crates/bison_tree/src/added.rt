//! What has been added to.

ghost use Rattle.std.specs.Prelude.{◌≡◌, Ok, IfOk};

use std::alloc::AllocError;

/// The value, if all was added to it. An error drops it here, so that no caller has to drop one.
pub(crate) fn if_added<T: Drop>(value: T, added: Result<(), AllocError>) -> Result<T, AllocError>
    ensures { IfOk result (λ whole. (whole ≡ value) × (added ≡ Ok tt)) }
{
    added?;
    Ok(value)
}
