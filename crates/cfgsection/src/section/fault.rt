//! Why the reading of a section stops.

ghost use Rattle.std.specs.Prelude.{◌≡◌};

use cfgbase::Span;
use cfgerrors::HeaderErrorKind;
use std::alloc::{AllocError, AllocFailed};

/// What is wrong with a section, and where.
#[derive(Clone, Copy)]
pub(crate) struct Fault {
    pub(crate) kind: HeaderErrorKind,
    pub(crate) span: Span,
}

/// Why a step of the reading stopped.
#[derive(Drop)]
pub(crate) enum ReadFault {
    OutOfMemory,
    Fault(Fault),
}

impl From<AllocError> for ReadFault {
    ghost use Rattle.cfgsection.specs.declared.section.fault.ReadFault.TheVariants.{OutOfMemory};

    ghost from_gives = { λ _ e. e ≡ OutOfMemory };

    fn from(_error: AllocError) -> ReadFault {
        ReadFault::OutOfMemory
    }
}

impl<T: Drop> From<AllocFailed<T>> for ReadFault {
    ghost use Rattle.cfgsection.specs.declared.section.fault.ReadFault.TheVariants.{OutOfMemory};

    ghost from_gives = { λ _ e. e ≡ OutOfMemory };

    fn from(_error: AllocFailed<T>) -> ReadFault {
        ReadFault::OutOfMemory
    }
}
