//! The page that the transcript is written on.

use std::alloc::{AllocError, Global};
use std::fmt::Display;

/// A text that is being written. Once memory runs out for it, or for something that it describes, it accepts nothing
/// more, and its text is an error: so the code that writes needs no checks and no results.
#[derive(Drop)]
pub(crate) struct Page {
    text: String,
    is_torn: bool,
    /// For whatever is made to be written.
    pub(crate) alloc: Global,
}

impl Page {
    /// An empty page.
    pub(crate) fn new(alloc: Global) -> Self {
        Page {
            text: String::new(alloc),
            is_torn: false,
            alloc,
        }
    }

    /// Writes a value's text: what `write!` and `writeln!` call.
    pub(crate) fn write_fmt<D: Display + Drop>(&mut self, value: D) {
        if !self.is_torn {
            self.is_torn = self.text.write_fmt(value).is_err();
        }
    }

    /// Writes a text this many times, with the turn's number in place of each `#`.
    pub(crate) fn write_times(&mut self, text: &str, count: usize) {
        for turn in 1..=count {
            self.write_turn(text, turn);
        }
    }

    fn write_turn(&mut self, text: &str, turn: usize) {
        for (place, part) in text.split('#').enumerate() {
            if place > 0 {
                self.write_fmt(turn);
            }
            self.write_fmt(part);
        }
    }

    /// Writes a text that was made.
    pub(crate) fn write_made(&mut self, made: Result<String, AllocError>) {
        match made {
            Ok(text) => self.write_fmt(text),
            Err(_) => self.tear(),
        }
    }

    /// Accepts nothing more, since memory ran out.
    pub(crate) fn tear(&mut self) {
        self.is_torn = true;
    }

    /// The text, if there was memory for it.
    pub(crate) fn text(&self) -> Result<&str, AllocError> {
        if self.is_torn {
            return Err(AllocError);
        }
        Ok(self.text.as_str())
    }
}
