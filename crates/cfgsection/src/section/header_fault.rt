//! Why a section was not read.

ghost use Rattle.std.specs.Prelude.{◌≡◌, Some};
ghost use Rattle.cfgsection.specs.SectionTexts.{fault_text};

use cfgbase::Span;
use cfgerrors::{HeaderError, write_lines};
use std::alloc::{AllocError, AllocFailed};
use std::error::Error;
use std::fmt;

/// Why a section was not read.
#[derive(Debug, Drop)]
pub enum HeaderFault {
    /// The section has these errors, at least one.
    Errors(Vec<HeaderError<Span>>),
    /// Out of memory. This says nothing about the text.
    OutOfMemory,
}

impl fmt::Display for HeaderFault {
    ghost output = { λ fault. Some (fault_text fault) };

    ghost styled_output = { λ fault _. Some (fault_text fault) };

    fn fmt<W: fmt::Write>(&self, f: &mut fmt::Formatter<W>) -> fmt::Result {
        match self {
            HeaderFault::Errors(errors) => write_lines(f, errors),
            HeaderFault::OutOfMemory => f.write_str("out of memory"),
        }
    }
}

impl Error for HeaderFault {}

impl From<AllocError> for HeaderFault {
    ghost use Rattle.cfgsection.specs.declared.section.header_fault.HeaderFault.TheVariants.{OutOfMemory};

    ghost from_gives = { λ _ fault. fault ≡ OutOfMemory };

    fn from(_refused: AllocError) -> HeaderFault {
        HeaderFault::OutOfMemory
    }
}

impl<T: Drop> From<AllocFailed<T>> for HeaderFault {
    ghost use Rattle.cfgsection.specs.declared.section.header_fault.HeaderFault.TheVariants.{OutOfMemory};

    ghost from_gives = { λ _ fault. fault ≡ OutOfMemory };

    fn from(_refused: AllocFailed<T>) -> HeaderFault {
        HeaderFault::OutOfMemory
    }
}
