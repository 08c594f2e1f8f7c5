//! Run failures, and their messages.

ghost use Rattle.std.specs.Prelude.{◌≡◌, ◌++◌, ◌+◌, ◌-◌, ◌^◌, ◌<◌, Err};
ghost use Rattle.cfgtool.specs.Endings.{ending_of, ending_with, ending_without, line_of, status_of};
ghost use Rattle.cfgsink.specs.Sinks.{AppendsOrFaults};

use cfgprogram::arguments::ArgumentsFault;
use cfgsink::ReportFault;
use cfgsink::sink::{Sink, SinkFault, write_whole};

/// Why a run failed.
#[derive(Clone, Copy)]
pub(crate) enum RunFault<'a> {
    /// The arguments were wrong.
    Usage,
    /// The file of this name could not be read, for a reason other than memory.
    Unreadable(&'a str),
    /// The file of this name is not UTF-8.
    NotUtf8(&'a str),
    /// The output did not accept the whole report.
    Write,
    /// Out of memory.
    OutOfMemory,
}

impl RunFault<'_> {
    /// The status that the program ends with.
    pub(crate) fn status(&self) -> u8
        ensures { result ≡ status_of (ending_with self.now) }
    {
        match self {
            RunFault::Usage | RunFault::Unreadable(_) | RunFault::NotUtf8(_) | RunFault::Write => 2,
            RunFault::OutOfMemory => 3,
        }
    }

    /// The message line, in three parts: the one in the middle is the file's name, as it was given.
    fn line(&self) -> (&str, &str, &str)
        ensures { result.0.now ++ (result.1.now ++ result.2.now) ≡ line_of (ending_with self.now) }
    {
        match *self {
            RunFault::Usage => ("usage: cfgtool KIND COMMAND FILE\n", "", ""),
            RunFault::Unreadable(file) => ("cfgtool: cannot read ", file, "\n"),
            RunFault::NotUtf8(file) => ("cfgtool: ", file, " is not UTF-8\n"),
            RunFault::Write => ("cfgtool: cannot write\n", "", ""),
            RunFault::OutOfMemory => ("cfgtool: out of memory\n", "", ""),
        }
    }
}

impl From<ReportFault> for RunFault<'_> {
    ghost from_gives = { λ fault made. ending_with made ≡ ending_of (Err fault) };

    fn from(fault: ReportFault) -> Self {
        match fault {
            ReportFault::Write => RunFault::Write,
            ReportFault::OutOfMemory => RunFault::OutOfMemory,
        }
    }
}

/// Ends a run that has no arguments, and returns its status. It writes a line that says why to `err`, as far as `err`
/// takes it.
pub(crate) fn refuse_arguments<E: Sink>(fault: ArgumentsFault, err: &mut E) -> u8
    requires { E.faults_counted err.old < 2 ^ 64 - 1 }
    ensures status { result ≡ status_of (ending_without fault) }
    ensures line { AppendsOrFaults (E.written err.old) (E.written err.new)
        (E.faults_counted err.old) (E.faults_counted err.new) (line_of (ending_without fault)) }
{
    let fault = match fault {
        ArgumentsFault::NotUtf8 => RunFault::Usage,
        ArgumentsFault::OutOfMemory => RunFault::OutOfMemory,
    };
    let _ = print(&fault, err);
    fault.status()
}

/// Writes a fault's message line.
pub(crate) fn print<E: Sink>(fault: &RunFault<'_>, err: &mut E) -> Result<(), SinkFault>
    requires { E.faults_counted err.old < 2 ^ 64 - 1 }
    ensures { AppendsOrFaults (E.written err.old) (E.written err.new)
        (E.faults_counted err.old) (E.faults_counted err.new) (line_of (ending_with fault.now)) }
{
    let (prefix, file, back) = fault.line();
    write_whole(err, prefix.as_bytes())?;
    write_whole(err, file.as_bytes())?;
    write_whole(err, back.as_bytes())
}
