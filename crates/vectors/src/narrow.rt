//! Writers that take little.

use std::alloc::Global;
use std::io::{self, ErrorKind, Write};

/// A writer that takes a few bytes at a time, up to a total. After that it fails, or it takes nothing.
#[derive(Drop)]
pub(crate) struct Narrow {
    pub(crate) taken: Vec<u8>,
    step: usize,
    room: usize,
    fault: Option<ErrorKind>,
    /// Whether memory ran out for what it took.
    pub(crate) wants_memory: bool,
}

impl Narrow {
    pub(crate) fn new(
        alloc: Global,
        (room, step, fault): (usize, usize, Option<ErrorKind>),
    ) -> Self {
        Narrow {
            taken: Vec::new(alloc),
            step,
            room,
            fault,
            wants_memory: false,
        }
    }

    /// A writer that takes all bytes.
    pub(crate) fn wide(alloc: Global) -> Self {
        Narrow::new(alloc, (usize::MAX, usize::MAX, None))
    }
}

impl Write for Narrow {
    fn write(&mut self, bytes: &[u8]) -> io::Result<usize> {
        let count = bytes.len().min(self.step).min(self.room);
        match self.fault {
            Some(kind) if count == 0 => return Err(kind.into()),
            _ => {}
        }
        match self.taken.extend_from_slice(&bytes[..count]) {
            Ok(()) => self.room -= count,
            Err(_) => self.wants_memory = true,
        }
        Ok(count)
    }

    fn flush(&mut self) -> io::Result<()> {
        Ok(())
    }
}
