//! How a program ended.

ghost use Rattle.std.specs.Prelude.{◌≡◌};
ghost use Rattle.std.specs.Process.{exit_status};

use std::process::{ExitCode, Termination};

/// A program ended, with this status. The crate of a program passes on this type and its `run_over`, but not
/// [`ended_with`]: so a `main` that returns one has run the program.
#[derive(Debug, Drop)]
pub struct Ended {
    status: u8,
}

impl Ended {
    /// The status.
    pub fn status(&self) -> u8
        ensures { result ≡ self.now.status }
    {
        self.status
    }
}

impl Termination for Ended {
    fn report<R: Eprint>(self, _rt: &R) -> ExitCode
        ensures { exit_status result ≡ self.status }
    {
        ExitCode::from(self.status)
    }
}

/// The end of a program with this status.
pub fn ended_with(status: u8) -> Ended
    ensures { result.status ≡ status }
{
    Ended { status }
}
