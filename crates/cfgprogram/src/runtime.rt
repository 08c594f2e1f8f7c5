//! The files of a runtime, and its two output streams.

ghost use Rattle.std.specs.Prelude.{◌≡◌, ◌≤◌, IfOk, length};
ghost use Rattle.cfgprogram.specs.declared.source.ReadError.TheVariants.{Other};

use crate::source::{self, ReadError, Source, SourceWithReasons};
use std::fs::OpenOptions;
use std::io::{self, Read, Seek, SeekFrom, Write};
use std::rt::{Clock, Files};
use std::thread;
use std::time::Duration;

/// How far away the end of a file is, at most, if room is made for it. That of a folder may be 2^63 bytes away.
const MOST_ROOM: u64 = 1 << 40;

/// How many bytes a pipe takes together, or none of them: POSIX promises so many.
const TOGETHER: usize = 512;

/// The files of a runtime, and its standard input under the name `-`.
#[derive(Drop)]
pub struct SystemFiles<'a, R> {
    rt: &'a R,
    /// Why the last of the files that could not be read could not be read.
    reason: ReadError,
}

impl<'a, R> SystemFiles<'a, R> {
    /// The files of this runtime, before one is fetched.
    pub fn new(rt: &'a R) -> Self
        ensures { result.reason ≡ Other }
    {
        SystemFiles {
            rt,
            reason: ReadError::Other,
        }
    }
}

impl<R: Files + Input + AllocGlobal> Source for SystemFiles<'_, R> {
    fn fetch(&mut self, name: &str) -> source::Input {
        let bytes = if name == "-" {
            let mut bytes = Vec::new(self.rt.alloc());
            match self.rt.reader().read_to_end(&mut bytes) {
                Ok(_) => Ok(bytes),
                Err(error) => Err(error),
            }
        } else {
            file_bytes(self.rt, name)
        };
        match bytes {
            Ok(bytes) => source::Input::Bytes(bytes),
            Err(error) if error.kind() == io::ErrorKind::OutOfMemory => {
                source::Input::OutOfMemory
            }
            Err(error) => {
                self.reason = read_error(error.kind());
                source::Input::Unreadable
            }
        }
    }
}

impl<R: Files + Input + AllocGlobal> SourceWithReasons for SystemFiles<'_, R> {
    ghost reason = { λ files. files.reason };

    fn reason(&self) -> ReadError {
        self.reason
    }
}

/// The bytes of the file with this name. Room for as many as its end is away is made first.
fn file_bytes<R: Files + AllocGlobal>(rt: &R, name: &str) -> io::Result<Vec<u8>> {
    let mut file = OpenOptions::new().read(true).open(rt, name)?;
    let mut bytes = Vec::new(rt.alloc());
    if let Ok(length) = file.seek(SeekFrom::End(0)) {
        file.rewind()?;
        if length < MOST_ROOM {
            bytes.reserve_exact(length as usize + 1)?;
        }
    }
    file.read_to_end(&mut bytes)?;
    Ok(bytes)
}

/// The reason that an error of this kind gives.
fn read_error(kind: io::ErrorKind) -> ReadError {
    match kind {
        io::ErrorKind::NotFound => ReadError::NotFound,
        io::ErrorKind::IsADirectory => ReadError::IsADirectory,
        io::ErrorKind::PermissionDenied => ReadError::PermissionDenied,
        _ => ReadError::Other,
    }
}

/// Standard output of a runtime. While the system takes no bytes for the moment, a write waits.
#[derive(Drop)]
pub struct OutputStream<'a, R> {
    /// The runtime.
    pub rt: &'a R,
}

impl<R: Print + Clock> Write for OutputStream<'_, R> {
    fn write(&mut self, bytes: &[u8]) -> io::Result<usize> {
        for _ in 0..u64::MAX {
            match self.rt.write_some(bytes) {
                Err(error) if error.kind() == io::ErrorKind::WouldBlock => pause(self.rt),
                Err(error) if error.kind() == io::ErrorKind::Interrupted => {}
                written => return written,
            }
        }
        Err(io::Error::from(io::ErrorKind::WouldBlock))
    }

    fn flush(&mut self) -> io::Result<()> {
        Ok(())
    }
}

/// Standard error of a runtime. It takes text alone. While the system takes no bytes for the moment, a write waits.
#[derive(Drop)]
pub struct ErrorStream<'a, R> {
    /// The runtime.
    pub rt: &'a R,
}

impl<R: Eprint + Clock> Write for ErrorStream<'_, R> {
    fn write(&mut self, bytes: &[u8]) -> io::Result<usize> {
        let text = first_text(bytes)?;
        eprint_all(self.rt, text)?;
        Ok(text.len())
    }

    fn flush(&mut self) -> io::Result<()> {
        Ok(())
    }
}

/// The text that these bytes begin with, of at most [`TOGETHER`] bytes.
///
/// # Errors
///
/// They don't begin with text.
fn first_text(bytes: &[u8]) -> io::Result<&str>
    ensures { IfOk result (λ text. length text.now ≤ length bytes.now) }
{
    let first = &bytes[..bytes.len().min(TOGETHER)];
    let error = match std::str::from_utf8(first) {
        Ok(text) => return Ok(text),
        Err(error) => error,
    };
    match std::str::from_utf8(&first[..error.valid_up_to()]) {
        Ok(text) if !text.is_empty() => Ok(text),
        _ => Err(io::Error::from(io::ErrorKind::InvalidData)),
    }
}

/// Writes a text to standard error, as soon as the system takes it.
fn eprint_all<R: Eprint + Clock>(rt: &R, text: &str) -> io::Result<()> {
    for _ in 0..u64::MAX {
        match rt.eprint(text) {
            Err(error) if error.kind() == io::ErrorKind::WouldBlock => pause(rt),
            written => return written,
        }
    }
    Err(io::Error::from(io::ErrorKind::WouldBlock))
}

/// Waits before a write is repeated.
fn pause<C: Clock>(clock: &C) {
    thread::sleep(clock, Duration::from_millis(1));
}
