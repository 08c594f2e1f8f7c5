//! How a report ends.

ghost use Rattle.std.specs.Prelude.{◌≡◌, ◌+◌, ◌-◌, ◌^◌, ◌<◌, Some, IsErrOf};
ghost use Rattle.cfgsink.specs.Reports.{WritesMade, fault_text, faults_met};
ghost use Rattle.cfgsink.specs.declared.outcome.ReportFault.TheVariants as variants;

use crate::sink::{Sink, SinkFault, write_whole};
use std::alloc::AllocError;
use std::error::Error;
use std::fmt;

/// How a report ended.
#[derive(Clone, Copy, Debug, PartialEq, Eq)]
pub enum Outcome {
    /// The text is a grammar, and what was requested is printed.
    Done,
    /// The text has errors, and they are printed.
    Refused,
}

/// Why a report failed.
#[derive(Clone, Copy, Debug, PartialEq, Eq)]
pub enum ReportFault {
    /// The sink did not accept all of it.
    Write,
    /// Out of memory.
    OutOfMemory,
}

impl fmt::Display for ReportFault {
    ghost output = { λ fault. Some (fault_text fault) };

    fn fmt<W: fmt::Write>(&self, f: &mut fmt::Formatter<W>) -> fmt::Result {
        f.write_str(match self {
            ReportFault::Write => "cannot write",
            ReportFault::OutOfMemory => "out of memory",
        })
    }
}

impl Error for ReportFault {}

impl From<AllocError> for ReportFault {
    ghost from_gives = { λ _ fault. fault ≡ variants.OutOfMemory };

    fn from(_: AllocError) -> Self {
        ReportFault::OutOfMemory
    }
}

impl From<SinkFault> for ReportFault {
    ghost from_gives = { λ _ fault. fault ≡ variants.Write };

    fn from(_: SinkFault) -> Self {
        ReportFault::Write
    }
}

/// Writes the lines of a report that was made; if there was no memory for them, nothing.
///
/// # Errors
///
/// Running out of memory, if that kept the report from being made. A fault of `out`, which then has a proper prefix of
/// the lines.
pub fn write_report<W: Sink>(
    out: &mut W,
    made: Result<(Outcome, String), AllocError>,
) -> Result<Outcome, ReportFault>
    requires { W.faults_counted out.old < 2 ^ 64 - 1 }
    ensures reported { WritesMade made (W.written out.old) (W.written out.new) result }
    ensures faults { W.faults_counted out.new ≡ W.faults_counted out.old + faults_met result }
    ensures untouched { IsErrOf result variants.OutOfMemory → out.new ≡ out.old }
{
    let (outcome, lines) = made?;
    write_whole(out, lines.as_bytes())?;
    Ok(outcome)
}
