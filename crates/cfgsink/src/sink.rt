//! What the program writes to.

ghost use Rattle.std.specs.Prelude.{◌≡◌, ℕ, ◌+◌, ◌-◌, ◌^◌, ◌<◌, List, Option, Some, OnErr};
ghost use Rattle.std.specs.Prelude.{OnOk, codes, length};
ghost use Rattle.std.specs.Io.{WritesAtMost};
ghost use Rattle.std.specs.Io.KnownBytes.{Appends, WriteAppends};
ghost use Rattle.cfgsink.specs.Sinks.{AppendsPrefix, faults_of};
ghost use Rattle.cfgsink.specs.declared.sink.WriteError.TheVariants.{Other};

use std::error::Error;
use std::fmt;
use std::io::{ErrorKind, Write};

/// That a sink accepted no bytes.
#[derive(Clone, Copy, Debug, PartialEq, Eq)]
pub struct SinkFault;

impl fmt::Display for SinkFault {
    ghost output = { λ _. Some (codes "cannot write") };

    fn fmt<W: fmt::Write>(&self, f: &mut fmt::Formatter<W>) -> fmt::Result {
        f.write_str("cannot write")
    }
}

impl Error for SinkFault {}

/// A receiver of bytes that counts its faults.
pub trait Sink {
    ghost written: { Self → Option (List ℕ) };

    ghost faults_counted: { Self → ℕ };

    /// Writes a prefix of these bytes, and returns its length in bytes.
    ///
    /// # Errors
    ///
    /// A fault; no byte is then written.
    fn write(&mut self, bytes: &[u8]) -> Result<usize, SinkFault>
        requires { faults_counted self.old < 2 ^ 64 - 1 }
        ensures bound { WritesAtMost result bytes.now }
        ensures bytes { WriteAppends (written self.old) (written self.new) result bytes.now }
        ensures faults { faults_counted self.new ≡ faults_counted self.old + faults_of result bytes.now };

    /// How many writes returned a fault, or wrote nothing of a slice with bytes.
    fn faults(&self) -> u64
        ensures { result ≡ faults_counted self.now };
}

/// A sink that also says why it accepted no bytes.
pub trait SinkWithReasons: Sink {
    ghost use Rattle.std.specs.Prelude.{◌≡◌};
    ghost use Rattle.cfgsink.specs.declared.sink.WriteError.{WriteError};
    ghost use Rattle.cfgsink.specs.declared.sink.WriteError.TheVariants.{Other};

    // The reason that the sink gives now.
    ghost reason: { Self → WriteError } = { λ sink. Other };

    /// Why the last write that was a fault was one, if there was any.
    fn reason(&self) -> WriteError
        ensures { result ≡ reason self.now };
}

/// Why a sink accepted no bytes, as far as the system says.
#[derive(Clone, Copy, Debug, PartialEq, Eq)]
pub enum WriteError {
    /// Nobody reads what is written: the pipe is closed.
    Closed,
    /// No space is left, or none that the writer may use.
    NoSpace,
    /// The file would get too large.
    FileTooLarge,
    /// Another reason.
    Other,
}

/// A writer, with a count of its faults, and the reason of the last one.
#[derive(Drop)]
pub struct Counted<W> {
    writer: W,
    faults: u64,
    reason: WriteError,
}

impl<W: Write> Counted<W> {
    /// The writer, with no faults yet.
    pub fn new(writer: W) -> Self
        ensures { result ≡ record { writer = writer; faults = 0; reason = Other } }
    {
        Counted {
            writer,
            faults: 0,
            reason: WriteError::Other,
        }
    }
}

impl<W: Write> Sink for Counted<W> {
    ghost written = { λ counted. W.contents counted.writer };

    ghost faults_counted = { λ counted. counted.faults };

    fn write(&mut self, bytes: &[u8]) -> Result<usize, SinkFault> {
        match self.writer.write(bytes) {
            Ok(count) => {
                if count == 0 && !bytes.is_empty() {
                    self.faults += 1;
                    self.reason = WriteError::Other;
                }
                Ok(count)
            }
            Err(error) => {
                self.faults += 1;
                self.reason = write_error(error.kind());
                Err(SinkFault)
            }
        }
    }

    fn faults(&self) -> u64 {
        self.faults
    }
}

impl<W: Write> SinkWithReasons for Counted<W> {
    ghost reason = { λ counted. counted.reason };

    fn reason(&self) -> WriteError {
        self.reason
    }
}

/// The reason that an error of this kind gives.
fn write_error(kind: ErrorKind) -> WriteError {
    match kind {
        ErrorKind::BrokenPipe => WriteError::Closed,
        ErrorKind::StorageFull | ErrorKind::QuotaExceeded => WriteError::NoSpace,
        ErrorKind::FileTooLarge => WriteError::FileTooLarge,
        _ => WriteError::Other,
    }
}

/// Writes all bytes, as many at a time as the sink accepts. If it accepts none, that is a fault too.
pub fn write_whole<W: Sink>(out: &mut W, bytes: &[u8]) -> Result<(), SinkFault>
    requires { W.faults_counted out.old < 2 ^ 64 - 1 }
    ensures ok { OnOk result (Appends (W.written out.old) (W.written out.new) bytes.now) }
    ensures ok_faults { OnOk result (W.faults_counted out.new ≡ W.faults_counted out.old) }
    ensures err { OnErr result (AppendsPrefix (W.written out.old) (W.written out.new) bytes.now) }
    ensures err_faults { OnErr result (W.faults_counted out.new ≡ W.faults_counted out.old + 1) }
{
    let mut taken = 0;
    while taken < bytes.len() {
        let count = out.write(&bytes[taken..])?;
        if count == 0 {
            return Err(SinkFault);
        }
        taken += count;
    }
    Ok(())
}
