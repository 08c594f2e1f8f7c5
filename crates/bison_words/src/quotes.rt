//! Character literals and strings.

ghost use Rattle.std.specs.Prelude.{◌≡◌, ◌≤◌, ◌<◌, ◌⊎◌, length, get_or, OnOk};
ghost use Rattle.constructs.specs.Construct.{again, goes_on, then};
ghost use Rattle.bison_words.specs.Quotes.{escaped, with_part, if_closed};
ghost use Rattle.bison_words.specs.Quotes.{numbered_value, numbered, illegal_escape, escape, quoted_part, quoted};
ghost use Rattle.bison_words.specs.Quotes.{quotes_end, literal_word, literal, string_word, translatable};
ghost use Rattle.bison_words.specs.Inner.Quotes.{string_lexeme};

use crate::class::Class;
use crate::names::number_of;
use crate::runs::{before, begins, run_len, starts};
use crate::scanner::Scanner;
use crate::words::{Lexeme, WordFaultKind};
use std::alloc::AllocError;

/// What is between quotes, or a part of it: the first character, and whether it is the only one.
type Part = (u8, bool);

/// What an escape of one character is.
fn escaped(b: u8) -> u8
    ensures { result ≡ escaped b }
{
    match b {
        b'a' => 7,
        b'b' => 8,
        b'f' => 12,
        b'n' => 10,
        b'r' => 13,
        b't' => 9,
        b'v' => 11,
        _ => b,
    }
}

/// What is between quotes, with one more part.
fn with_part(parts: Option<Part>, part: Part) -> Option<Part>
    ensures { result ≡ with_part parts part }
{
    match parts {
        None => Some(part),
        Some((first, _)) => Some((first, false)),
    }
}

impl<'a> Scanner<'a> {
    ghost use Rattle.bison_words.specs.Inner.Builds.{Builds, Passed};

    /// The value of an escape that begins at `start`, if it is a character.
    #[tactic(auto, unfolding(crate::specs::Quotes::numbered_value))]
    fn numbered_value(&mut self, start: &'a str, value: usize) -> Result<u8, AllocError>
        requires { length self.old.rest.now ≤ length start.now }
        ensures read { Builds (λ x. x) self.old self.new result
            (numbered_value (length self.old.text.now) start.now value) }
        ensures passed { OnOk result (Passed self.old self.new) }
    {
        if 0 < value && value < 256 {
            return Ok(value as u8);
        }
        self.fault_between(start, self.rest, WordFaultKind::IllegalEscape)?;
        Ok(b'?')
    }

    /// Passes the digits of an escape that begins at `start`.
    #[tactic(auto, unfolding(crate::specs::Quotes::numbered))]
    fn numbered(
        &mut self,
        start: &'a str,
        class: Class,
        base: usize,
        least: usize,
        most: usize,
    ) -> Result<u8, AllocError>
        requires digits { (class ≡ Class.Octal) ⊎ (class ≡ Class.Hexadecimal) }
        requires before { length self.old.rest.now ≤ length start.now }
        ensures read { Builds (λ x. x) self.old self.new result
            (numbered (length self.old.text.now) start.now class base least most) }
        ensures passed { OnOk result (Passed self.old self.new) }
    {
        if run_len(self.rest, class) < least {
            self.fault_between(start, self.rest, WordFaultKind::IllegalEscape)?;
            return Ok(b'?');
        }
        let digits = self.few(class, most);
        self.numbered_value(start, number_of(base, digits))
    }

    #[tactic(auto, unfolding(crate::specs::Quotes::illegal_escape))]
    fn illegal_escape(&mut self, start: &'a str) -> Result<u8, AllocError>
        requires { length self.old.rest.now ≤ length start.now }
        ensures read { Builds (λ x. x) self.old self.new result
            (illegal_escape (length self.old.text.now) start.now) }
        ensures passed { OnOk result (Passed self.old self.new) }
    {
        self.character();
        self.fault_between(start, self.rest, WordFaultKind::IllegalEscape)?;
        Ok(b'?')
    }

    /// Passes what follows the backslash at `start`, and returns the character that the escape is.
    #[tactic(auto, unfolding(crate::specs::Quotes::escape))]
    fn escape(&mut self, start: &'a str) -> Result<u8, AllocError>
        requires { length self.old.rest.now ≤ length start.now }
        ensures read { Builds (λ x. x) self.old self.new result
            (escape (length self.old.text.now) start.now) }
        ensures passed { OnOk result (Passed self.old self.new) }
    {
        if let Some(b) = self.byte(Class::Escape) {
            return Ok(escaped(b));
        }
        if starts(self.rest, Class::Octal) {
            return self.numbered(start, Class::Octal, 8, 1, 3);
        }
        if self.accept("x") {
            return self.numbered(start, Class::Hexadecimal, 16, 1, self.text.len());
        }
        if self.accept("u") {
            return self.numbered(start, Class::Hexadecimal, 16, 4, 4);
        }
        if self.accept("U") {
            return self.numbered(start, Class::Hexadecimal, 16, 8, 8);
        }
        self.illegal_escape(start)
    }

    /// Passes a part of what is between quotes.
    #[tactic(auto, unfolding(crate::specs::Quotes::quoted_part))]
    fn quoted_part(&mut self, close: &str) -> Result<Option<Part>, AllocError>
        ensures read { Builds (λ x. x) self.old self.new result
            (quoted_part (length self.old.text.now) close.now) }
        ensures passed { OnOk result (Passed self.old self.new) }
    {
        let start = self.rest;
        if begins(self.rest, close) {
            return Ok(None);
        }
        if self.accept("\\") {
            let b = self.escape(start)?;
            return Ok(Some((b, true)));
        }
        if self.accept("\0") {
            self.fault_between(start, self.rest, WordFaultKind::IllegalCharacters)?;
            return Ok(Some((b'?', true)));
        }
        if let Some(b) = self.byte(Class::Quote) {
            return Ok(Some((b, true)));
        }
        match self.some(Class::Quoted) {
            Some(run) => Ok(Some((first_byte(run), run.len() == 1))),
            None => Ok(None),
        }
    }

    /// Passes what is between quotes.
    fn quoted(&mut self, close: &str) -> Result<Option<Part>, AllocError>
        ensures read { Builds (λ x. x) self.old self.new result
            (quoted (length self.old.text.now) close.now) }
        ensures passed { OnOk result (Passed self.old self.new) }
    {
        let mut parts = None;
        while let Some(part) = self.quoted_part(close)? {
            parts = with_part(parts, part);
        }
        Ok(parts)
    }

    /// Passes what closes the quotes that begin at `start`, and returns whether it is here.
    #[tactic(auto, unfolding(crate::specs::Quotes::quotes_end))]
    fn quotes_end(
        &mut self,
        start: &'a str,
        close: &str,
        kind: WordFaultKind,
    ) -> Result<bool, AllocError>
        requires { 1 ≤ length start.now × length start.now ≤ length self.old.text.now }
        ensures read { Builds (λ x. x) self.old self.new result
            (quotes_end (length self.old.text.now) start.now close.now kind) }
        ensures passed { OnOk result (Passed self.old self.new) }
    {
        if self.accept(close) {
            return Ok(true);
        }
        self.fault_first(start, 1, kind)?;
        Ok(false)
    }

    /// Adds a literal.
    #[tactic(auto, unfolding(crate::specs::Quotes::literal_word))]
    fn literal_word(&mut self, start: &'a str, parts: Option<Part>) -> Result<bool, AllocError>
        requires { length self.old.rest.now ≤ length start.now }
        ensures read { Builds goes_on self.old self.new result
            (then (literal_word (length self.old.text.now) start.now parts) again) }
        ensures passed { OnOk result (Passed self.old self.new) }
    {
        match parts {
            Some((first, true)) => self.found_word(start, Lexeme::Literal(first)),
            Some((first, false)) => {
                self.faulty_word(start, WordFaultKind::LongLiteral, Lexeme::Literal(first))
            }
            None => self.faulty_word(start, WordFaultKind::EmptyLiteral, Lexeme::Literal(b'?')),
        }
    }

    #[tactic(auto, unfolding(crate::specs::Quotes::literal))]
    pub(crate) fn literal(&mut self) -> Result<bool, AllocError>
        ensures read { Builds goes_on self.old self.new result (literal (length self.old.text.now)) }
        ensures passed { OnOk result (Passed self.old self.new) }
    {
        let start = self.rest;
        if !self.accept("'") {
            return Ok(false);
        }
        let parts = self.quoted("'")?;
        let closed = self.quotes_end(start, "'", WordFaultKind::IncompleteLiteral)?;
        self.literal_word(start, if_closed(closed, parts))
    }

    /// Passes the string here, of a word that begins at `start`.
    #[tactic(auto, unfolding(crate::specs::Quotes::string_word))]
    pub(crate) fn string_word(
        &mut self,
        start: &'a str,
        close: &str,
        is_translatable: bool,
    ) -> Result<bool, AllocError>
        requires { length self.old.rest.now ≤ length start.now }
        ensures read { Builds goes_on self.old self.new result
            (string_word (length self.old.text.now) start.now close.now (string_lexeme is_translatable)) }
        ensures passed { OnOk result (Passed self.old self.new) }
    {
        let quote = self.rest;
        if !self.accept("\"") {
            return Ok(false);
        }
        let opened = self.rest;
        let _ = self.quoted(close)?;
        let text = before(opened, self.rest);
        let _ = self.quotes_end(quote, close, WordFaultKind::IncompleteString)?;
        let lexeme = if is_translatable {
            Lexeme::Translatable(text)
        } else {
            Lexeme::String(text)
        };
        self.found_word(start, lexeme)
    }

    #[tactic(auto, unfolding(crate::specs::Quotes::translatable))]
    pub(crate) fn translatable(&mut self) -> Result<bool, AllocError>
        ensures read { Builds goes_on self.old self.new result (translatable (length self.old.text.now)) }
        ensures passed { OnOk result (Passed self.old self.new) }
    {
        let start = self.rest;
        if !self.accept("_(") {
            return Ok(false);
        }
        self.string_word(start, "\")", true)
    }
}

/// The parts of a literal, or a `?` if it isn't closed.
fn if_closed(closed: bool, parts: Option<Part>) -> Option<Part>
    ensures { result ≡ if_closed closed parts }
{
    if closed { parts } else { Some((b'?', true)) }
}

/// The text's first byte; 0 if it has none.
fn first_byte(text: &str) -> u8
    ensures { result ≡ get_or text.now 0 0 }
{
    match text.as_bytes() {
        [] => 0,
        [b, ..] => *b,
    }
}
