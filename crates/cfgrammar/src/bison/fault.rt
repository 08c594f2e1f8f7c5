//! Why a Yacc or Bison file has no grammar.

ghost use Rattle.std.specs.Prelude.{◌≡◌, Some};
ghost use Rattle.cfgrammar.specs.BisonFaultTexts.{fault_text};
ghost use Rattle.cfgrammar.specs.declared.bison.fault.BisonFault.TheVariants.{OutOfMemory};

use bison_errors::Error;
use cfgerrors::write_lines;
use std::alloc::{AllocError, AllocFailed};
use std::{error, fmt};

/// Why a Yacc or Bison file has no grammar.
#[derive(Debug, Drop)]
pub enum BisonFault {
    /// The file has these errors, at least one.
    Errors(Vec<Error>),
    /// The index type cannot count the rules, tokens, productions or symbols.
    StorageTooSmall,
    /// Out of memory. This says nothing about the file.
    OutOfMemory,
}

impl fmt::Display for BisonFault {
    ghost output = { λ fault. Some (fault_text fault) };

    ghost styled_output = { λ fault _. Some (fault_text fault) };

    fn fmt<W: fmt::Write>(&self, f: &mut fmt::Formatter<W>) -> fmt::Result {
        match self {
            BisonFault::Errors(errors) => write_lines(f, errors),
            BisonFault::StorageTooSmall => f.write_str("Index type too small for this grammar"),
            BisonFault::OutOfMemory => f.write_str("out of memory"),
        }
    }
}

impl error::Error for BisonFault {}

impl From<AllocError> for BisonFault {
    ghost from_gives = { λ _ fault. fault ≡ OutOfMemory };

    fn from(_refused: AllocError) -> BisonFault {
        BisonFault::OutOfMemory
    }
}

impl<T: Drop> From<AllocFailed<T>> for BisonFault {
    ghost from_gives = { λ _ fault. fault ≡ OutOfMemory };

    fn from(_refused: AllocFailed<T>) -> BisonFault {
        BisonFault::OutOfMemory
    }
}
