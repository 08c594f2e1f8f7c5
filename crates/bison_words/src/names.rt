//! Identifiers, numbers, marks, and what can't begin a word.

ghost use Rattle.std.specs.Prelude.{◌≡◌, ◌≤◌, length, OnOk};
ghost use Rattle.constructs.specs.Construct.{goes_on};
ghost use Rattle.bison_words.specs.Digits.{digit_value, with_digit, number_of};
ghost use Rattle.bison_words.specs.Names.{is_identifier, is_colon};
ghost use Rattle.bison_words.specs.Names.{identifier, number_end, number, mark, odd};

use crate::class::Class;
use crate::runs::{begins, run_len, starts};
use crate::scanner::Scanner;
use crate::words::{Lexeme, WordFaultKind};
use std::alloc::AllocError;

/// The value of a digit, if the byte is one.
fn digit_value(b: u8) -> usize
    ensures { result ≡ digit_value b }
{
    let value = if b < b'9' + 1 {
        b.saturating_sub(b'0')
    } else if b < b'a' {
        b.saturating_sub(b'A' - 10)
    } else {
        b.saturating_sub(b'a' - 10)
    };
    value as usize
}

/// A number with one more digit.
fn with_digit(base: usize, number: usize, b: u8) -> usize
    ensures { result ≡ with_digit base number b }
{
    number.saturating_mul(base).saturating_add(digit_value(b))
}

/// The value of digits, or the greatest `usize` if it doesn't fit.
#[tactic(auto, unfolding(crate::specs::Digits::number_of))]
pub(crate) fn number_of(base: usize, digits: &str) -> usize
    ensures { result ≡ number_of base digits.now }
{
    digits
        .as_bytes()
        .iter()
        .fold(0, |number, b| with_digit(base, number, *b))
}

/// Whether the text begins with an identifier.
#[tactic(auto, unfolding(crate::specs::Names::is_identifier))]
pub(crate) fn is_identifier(text: &str) -> bool
    ensures { result ≡ is_identifier text.now }
{
    starts(text, Class::Letter) && run_len(text, Class::Odd) <= run_len(text, Class::NameByte)
}

/// Whether the text begins with a colon.
#[tactic(auto, unfolding(crate::specs::Names::is_colon))]
pub(crate) fn is_colon(text: &str) -> bool
    ensures { result ≡ is_colon text.now }
{
    begins(text, ":") && run_len(text, Class::Odd) == 1
}

impl<'a> Scanner<'a> {
    ghost use Rattle.bison_words.specs.Inner.Builds.{Builds, Passed};

    #[tactic(auto, unfolding(crate::specs::Names::identifier))]
    pub(crate) fn identifier(&mut self) -> Result<bool, AllocError>
        ensures read { Builds goes_on self.old self.new result (identifier (length self.old.text.now)) }
        ensures passed { OnOk result (Passed self.old self.new) }
    {
        let start = self.rest;
        match self.some(Class::NameByte) {
            Some(name) => self.found_word(start, Lexeme::Identifier(name)),
            None => Ok(false),
        }
    }

    /// Adds the number that begins at `start` and has these digits; no letter may follow it.
    #[tactic(auto, unfolding(crate::specs::Names::number_end, crate::specs::Names::number_word))]
    fn number_end(&mut self, start: &'a str, base: usize, digits: &str) -> Result<bool, AllocError>
        requires { length self.old.rest.now ≤ length start.now }
        ensures read { Builds goes_on self.old self.new result
            (number_end (length self.old.text.now) start.now base digits.now) }
        ensures passed { OnOk result (Passed self.old self.new) }
    {
        if digits.is_empty() || starts(self.rest, Class::Letter) {
            self.pass(Class::NameByte);
            return self.odd_between(start, self.rest, WordFaultKind::IllegalIdentifier);
        }
        let number = number_of(base, digits);
        if number > 2_147_483_647 {
            return self.faulty_word(start, WordFaultKind::IllegalInteger, Lexeme::Number(number));
        }
        self.found_word(start, Lexeme::Number(number))
    }

    #[tactic(auto, unfolding(crate::specs::Names::number, crate::specs::Names::hexadecimal))]
    pub(crate) fn number(&mut self) -> Result<bool, AllocError>
        ensures read { Builds goes_on self.old self.new result (number (length self.old.text.now)) }
        ensures passed { OnOk result (Passed self.old self.new) }
    {
        let start = self.rest;
        if self.accept("0x") {
            let digits = self.run(Class::Hexadecimal);
            return self.number_end(start, 16, digits);
        }
        if self.accept("0X") {
            let digits = self.run(Class::Hexadecimal);
            return self.number_end(start, 16, digits);
        }
        match self.some(Class::Digit) {
            Some(digits) => self.number_end(start, 10, digits),
            None => Ok(false),
        }
    }

    #[tactic(auto, unfolding(crate::specs::Names::mark))]
    pub(crate) fn mark(&mut self) -> Result<bool, AllocError>
        ensures read { Builds goes_on self.old self.new result (mark (length self.old.text.now)) }
        ensures passed { OnOk result (Passed self.old self.new) }
    {
        let start = self.rest;
        if self.accept(";") {
            return self.found_word(start, Lexeme::Semicolon);
        }
        if self.accept("|") {
            return self.found_word(start, Lexeme::Bar);
        }
        if self.accept("=") {
            return self.found_word(start, Lexeme::Equals);
        }
        if self.accept(":") {
            return self.found_word(start, Lexeme::Colon);
        }
        Ok(false)
    }

    /// Passes odd characters that follow each other, or another character that no word begins with.
    #[tactic(auto, unfolding(crate::specs::Names::odd))]
    pub(crate) fn odd(&mut self) -> Result<bool, AllocError>
        ensures read { Builds goes_on self.old self.new result (odd (length self.old.text.now)) }
        ensures passed { OnOk result (Passed self.old self.new) }
    {
        let start = self.rest;
        if let Some(_run) = self.some(Class::Odd) {
            return self.odd_between(start, self.rest, WordFaultKind::IllegalCharacters);
        }
        match self.byte(Class::Any) {
            Some(_) => self.odd_between(start, self.rest, WordFaultKind::IllegalCharacters),
            None => Ok(false),
        }
    }
}
