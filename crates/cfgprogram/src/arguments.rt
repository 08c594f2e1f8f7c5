//! The arguments of a program.

ghost use Rattle.std.specs.Prelude.{◌≡◌};
ghost use Rattle.cfgprogram.specs.declared.arguments.ArgumentsFault.TheVariants as arguments_fault;

use std::alloc::AllocError;
use std::rt::Env;
use std::{env, io};

/// Why there are no arguments to run on.
#[derive(Clone, Copy, Debug, PartialEq, Eq)]
pub enum ArgumentsFault {
    /// One of them is not UTF-8.
    NotUtf8,
    /// There was no memory for them.
    OutOfMemory,
}

impl From<AllocError> for ArgumentsFault {
    ghost from_gives = { λ _ fault. fault ≡ arguments_fault.OutOfMemory };

    fn from(_: AllocError) -> Self {
        ArgumentsFault::OutOfMemory
    }
}

/// The command-line arguments, without the program's name.
///
/// # Errors
///
/// One that is not UTF-8, or running out of memory.
pub fn arguments<R: Env + AllocGlobal>(rt: &R) -> Result<Vec<String>, ArgumentsFault> {
    match env::args(rt) {
        Ok(arguments) => Ok(arguments.skip(1).collect(rt.alloc())?),
        Err(error) if error.kind() == io::ErrorKind::OutOfMemory => Err(
            ArgumentsFault::OutOfMemory,
        ),
        Err(_) => Err(ArgumentsFault::NotUtf8),
    }
}
