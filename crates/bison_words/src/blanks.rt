//! Blanks: white space, commas, comments, and `#line` lines.

ghost use Rattle.std.specs.Prelude.{◌≡◌, ◌≤◌, ◌<◌, length, OnOk};
ghost use Rattle.constructs.specs.Construct.{again, goes_on, then};
ghost use Rattle.bison_words.specs.Blanks.{from_end, is_line_end, is_numbered, is_line_number};
ghost use Rattle.bison_words.specs.Blanks.{line_number, comment, blank_turn, blank};

use crate::class::Class;
use crate::runs::{run, starts};
use crate::scanner::Scanner;
use crate::words::WordFaultKind;
use constructs::after_word;
use std::alloc::AllocError;

/// The `n`th byte before the end, or else the first one; 0 if there is none.
pub(crate) fn from_end(bytes: &[u8], n: usize) -> u8
    ensures { result ≡ from_end n bytes.now }
{
    bytes
        .get(bytes.len().saturating_sub(n))
        .copied()
        .unwrap_or(0)
}

/// Whether the line may end so after its number.
fn is_line_end(tail: &str) -> bool
    ensures { result ≡ is_line_end tail.now }
{
    match tail.as_bytes() {
        [] | [b'\r'] => true,
        _ => match after_word(tail, " \"") {
            Some(opened) => {
                let file = opened.as_bytes();
                from_end(file, 1) == b'"'
                    || (from_end(file, 1) == b'\r' && from_end(file, 2) == b'"')
            }
            None => false,
        },
    }
}

/// Whether the text begins with a number and, if any, a file, up to an LF.
fn is_numbered(text: &str) -> bool
    ensures { result ≡ is_numbered text.now }
{
    let (line, rest) = run(text, Class::Line);
    starts(text, Class::Digit) && !rest.is_empty() && is_line_end(run(line, Class::Digit).1)
}

/// Whether the text begins with a line `#line 5` or `#line 5 "file"`.
#[tactic(auto, unfolding(crate::specs::Blanks::is_line_number))]
fn is_line_number(text: &str) -> bool
    ensures { result ≡ is_line_number text.now }
{
    match after_word(text, "#line ") {
        Some(rest) => is_numbered(rest),
        None => false,
    }
}

impl Scanner<'_> {
    ghost use Rattle.bison_words.specs.Inner.Builds.{Builds, Passed};

    /// Passes a `#line` line, which begins here, up to its LF.
    #[tactic(auto, unfolding(crate::specs::Blanks::line_number))]
    pub(crate) fn line_number(&mut self)
        ensures read { Builds (λ x. x) self.old self.new (Ok result) line_number }
        ensures passed { Passed self.old self.new }
    {
        if is_line_number(self.rest) {
            self.pass(Class::Line);
        }
    }
}

impl<'a> Scanner<'a> {
    ghost use Rattle.bison_words.specs.Inner.Builds.{Builds, Passed};

    /// Passes the rest of the comment that begins at `start`.
    #[tactic(auto, unfolding(crate::specs::Blanks::comment, crate::specs::Here::unended))]
    fn comment(&mut self, start: &'a str) -> Result<bool, AllocError>
        requires { length self.old.rest.now ≤ length start.now }
        ensures read { Builds goes_on self.old self.new result
            (then (comment (length self.old.text.now) start.now) again) }
        ensures passed { OnOk result (Passed self.old self.new) }
    {
        if let Some(_text) = self.first("*/") {
            return Ok(true);
        }
        self.odd_between(start, self.rest, WordFaultKind::IncompleteComment)?;
        self.pass(Class::Any);
        Ok(true)
    }

    /// Passes a part of a blank, if there is one here.
    #[tactic(auto, unfolding(crate::specs::Blanks::blank_turn))]
    fn blank_turn(&mut self) -> Result<bool, AllocError>
        ensures read { Builds goes_on self.old self.new result (blank_turn (length self.old.text.now)) }
        ensures passed { OnOk result (Passed self.old self.new) }
    {
        let start = self.rest;
        if let Some(_blanks) = self.some(Class::Blank) {
            return Ok(true);
        }
        if self.accept("\n") {
            self.line_number();
            return Ok(true);
        }
        if self.accept("//") {
            self.pass(Class::Line);
            return Ok(true);
        }
        if self.accept("/*") {
            return self.comment(start);
        }
        Ok(false)
    }

    /// Passes the blank here.
    pub(crate) fn blank(&mut self) -> Result<(), AllocError>
        ensures read { Builds (λ x. x) self.old self.new result (blank (length self.old.text.now)) }
        ensures passed { OnOk result (Passed self.old self.new) }
    {
        while self.blank_turn()? {}
        Ok(())
    }
}
