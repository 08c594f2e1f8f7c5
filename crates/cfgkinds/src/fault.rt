//! Why a call failed.

ghost use Rattle.std.specs.Prelude.{◌≡◌, Some};
ghost use Rattle.cfgkinds.specs.ValueErrorTexts.{kind_fault_text};
ghost use Rattle.cfgkinds.specs.declared.fault.KindFault.TheVariants.{OutOfMemory};

use cfgerrors::HeaderError;
use std::alloc::{AllocError, AllocFailed};
use std::error::Error;
use std::fmt;

/// Why a value names no kind of Yacc.
#[derive(Debug, Drop)]
pub enum KindFault<T> {
    /// These parts of the value are wrong.
    Error(HeaderError<T>),
    /// Out of memory for their locations.
    OutOfMemory,
}

impl<T> fmt::Display for KindFault<T> {
    ghost output = { λ fault. Some (kind_fault_text fault) };

    ghost styled_output = { λ fault _. Some (kind_fault_text fault) };

    fn fmt<W: fmt::Write>(&self, f: &mut fmt::Formatter<W>) -> fmt::Result {
        match self {
            KindFault::Error(error) => error.fmt(f),
            KindFault::OutOfMemory => f.write_str("out of memory"),
        }
    }
}

impl<T: fmt::Debug + Drop> Error for KindFault<T> {}

impl<T> From<AllocError> for KindFault<T> {
    ghost from_gives = { λ _ fault. fault ≡ OutOfMemory };

    fn from(_refused: AllocError) -> KindFault<T> {
        KindFault::OutOfMemory
    }
}

impl<T, U: Drop> From<AllocFailed<U>> for KindFault<T> {
    ghost from_gives = { λ _ fault. fault ≡ OutOfMemory };

    fn from(_refused: AllocFailed<U>) -> KindFault<T> {
        KindFault::OutOfMemory
    }
}
