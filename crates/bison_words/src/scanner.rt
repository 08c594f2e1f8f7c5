//! The scanner: the rest of a text, and the words and faults that were read.

ghost use Rattle.std.specs.Prelude.{◌≡◌, ◌≤◌, ◌-◌, ◌+◌, ◌⊎◌, [], length, drop, Some, None, Ok, MatchBool, OnOk};
ghost use Rattle.constructs.specs.Construct.{then, again, goes_on};
ghost use Rattle.constructs.specs.Pieces.{strip, split_first};
ghost use Rattle.bison_words.specs.Runs.{some_of, byte_of};
ghost use Rattle.bison_words.specs.Words.{span_between, lexeme_view};
ghost use Rattle.bison_words.specs.Here.{run_here, few_here, character_here, passes};
ghost use Rattle.bison_words.specs.Here.{word_between, fault_between, fault_first, odd_between};

use crate::class::Class;
use crate::runs;
use crate::words::{Lexeme, Word, WordFault, WordFaultKind};
use cfgbase::Span;
use constructs::{after_word, split_at_first};
use std::alloc::{AllocError, Global};

/// Reads the words of a text: `rest` is the unread suffix.
#[derive(Drop)]
pub(crate) struct Scanner<'a> {
    pub(crate) text: &'a str,
    pub(crate) rest: &'a str,
    pub(crate) words: Vec<Word<'a>>,
    pub(crate) faults: Vec<WordFault>,
    pub(crate) epilogue: Option<&'a str>,
    ghost within: { length rest.now ≤ length text.now },
    ghost suffix: { drop (length text.now - length rest.now) text.now ≡ rest.now },
}

impl<'a> Scanner<'a> {
    ghost use Rattle.bison_words.specs.Suffixes.{IsSuffix};
    ghost use Rattle.bison_words.specs.Inner.Builds.{Builds, Passed, Keeps, IsFoundHere, made_by};

    /// At the start of a text, with nothing read.
    pub(crate) fn new(alloc: Global, text: &'a str) -> Self
        ensures { (result.text.now ≡ text.now) × (result.rest.now ≡ text.now)
            × (made_by result ≡ record { words = []; faults = []; epilogue = None }) }
    {
        Scanner {
            text,
            rest: text,
            words: Vec::new(alloc),
            faults: Vec::new(alloc),
            epilogue: None,
        }
    }

    /// Passes what precedes the rest.
    pub(crate) fn go_to(&mut self, rest: &'a str)
        requires { IsSuffix self.old.rest.now rest.now }
        ensures { (self.new.rest.now ≡ rest.now) × Keeps self.old self.new }
    {
        self.rest = rest;
    }

    /// Passes the word, if the rest begins with it.
    pub(crate) fn accept(&mut self, word: &str) -> bool
        ensures passed { MatchBool result
            ((strip word.now self.old.rest.now ≡ Some self.new.rest.now) × Keeps self.old self.new)
            ((strip word.now self.old.rest.now ≡ None) × (self.new ≡ self.old)) }
        ensures shorter { MatchBool result (length self.new.rest.now + length word.now ≡ length self.old.rest.now)
            (self.new ≡ self.old) }
        ensures same { self.new.text ≡ self.old.text }
    {
        match after_word(self.rest, word) {
            Some(rest) => {
                self.go_to(rest);
                true
            }
            None => false,
        }
    }

    /// Passes the run of the class, which may be empty, and returns it.
    pub(crate) fn run(&mut self, class: Class) -> &'a str
        ensures read { Builds (λ x. x.now) self.old self.new (Ok result) (run_here class) }
        ensures passed { Passed self.old self.new }
    {
        let (run, rest) = runs::run(self.rest, class);
        self.go_to(rest);
        run
    }

    /// Passes the run of the class, which may be empty.
    pub(crate) fn pass(&mut self, class: Class)
        ensures read { Builds (λ x. x) self.old self.new (Ok result) (passes class) }
        ensures passed { Passed self.old self.new }
    {
        let _ = self.run(class);
    }

    /// Passes the run of the class, if it isn't empty, and returns it.
    pub(crate) fn some(&mut self, class: Class) -> Option<&'a str>
        ensures { IsFoundHere (λ x. x.now) (some_of class) self.old self.new result }
    {
        if !runs::starts(self.rest, class) {
            return None;
        }
        let (run, rest) = runs::run(self.rest, class);
        self.go_to(rest);
        Some(run)
    }

    /// Passes an ASCII byte of the class, if there is one, and returns it.
    pub(crate) fn byte(&mut self, class: Class) -> Option<u8>
        ensures { IsFoundHere (λ x. x) (byte_of class) self.old self.new result }
    {
        let (byte, rest) = runs::leading_byte(self.rest, class)?;
        self.go_to(rest);
        Some(byte)
    }

    /// Passes at most so many bytes of the run of the class, and returns them.
    pub(crate) fn few(&mut self, class: Class, most: usize) -> &'a str
        requires { (class ≡ Class.Octal) ⊎ (class ≡ Class.Hexadecimal) }
        ensures read { Builds (λ x. x.now) self.old self.new (Ok result) (few_here class most) }
        ensures passed { Passed self.old self.new }
    {
        let (few, rest) = runs::few(self.rest, class, most);
        self.go_to(rest);
        few
    }

    /// Passes a character, if there is one.
    pub(crate) fn character(&mut self)
        ensures read { Builds (λ x. x) self.old self.new (Ok result) character_here }
        ensures passed { Passed self.old self.new }
    {
        let rest = runs::after_character(self.rest);
        self.go_to(rest);
    }

    /// Passes the first needle, if there is one, and returns what precedes it.
    pub(crate) fn first(&mut self, needle: &str) -> Option<&'a str>
        ensures { IsFoundHere (λ x. x.now) (split_first needle.now) self.old self.new result }
    {
        let (body, rest) = split_at_first(self.rest, needle)?;
        self.go_to(rest);
        Some(body)
    }

    /// Adds a word that is from one rest of the text to another.
    pub(crate) fn word_between(
        &mut self,
        start: &'a str,
        end: &'a str,
        lexeme: Lexeme<'a>,
    ) -> Result<(), AllocError>
        requires { length end.now ≤ length start.now }
        ensures read { Builds (λ x. x) self.old self.new result
            (word_between (length self.old.text.now) start.now end.now (lexeme_view lexeme.entry)) }
        ensures passed { OnOk result (Passed self.old self.new) }
    {
        let span = span_between(self.text, start, end);
        self.words.push(Word { lexeme, span })?;
        Ok(())
    }

    /// Adds a word that begins at `start` and ends here, for a turn that goes on after it.
    pub(crate) fn found_word(
        &mut self,
        start: &'a str,
        lexeme: Lexeme<'a>,
    ) -> Result<bool, AllocError>
        requires { length self.old.rest.now ≤ length start.now }
        ensures read { Builds goes_on self.old self.new result
            (then (word_between (length self.old.text.now) start.now self.old.rest.now
            (lexeme_view lexeme.entry)) again) }
        ensures passed { OnOk result (Passed self.old self.new) }
    {
        self.word_between(start, self.rest, lexeme)?;
        Ok(true)
    }

    /// Adds a fault from one rest of the text to another.
    pub(crate) fn fault_between(
        &mut self,
        start: &str,
        end: &str,
        kind: WordFaultKind,
    ) -> Result<(), AllocError>
        requires { length end.now ≤ length start.now }
        ensures read { Builds (λ x. x) self.old self.new result
            (fault_between (length self.old.text.now) start.now end.now kind) }
        ensures passed { OnOk result (Passed self.old self.new) }
    {
        let span = span_between(self.text, start, end);
        self.faults.push(WordFault { kind, span })?;
        Ok(())
    }

    /// Adds a fault from `start` up to here, and the same as a word, for a turn that goes on after it.
    pub(crate) fn faulty_word(
        &mut self,
        start: &'a str,
        kind: WordFaultKind,
        lexeme: Lexeme<'a>,
    ) -> Result<bool, AllocError>
        requires { length self.old.rest.now ≤ length start.now }
        ensures read { Builds goes_on self.old self.new result
            (then (fault_between (length self.old.text.now) start.now self.old.rest.now kind) (λ _.
            then (word_between (length self.old.text.now) start.now self.old.rest.now
            (lexeme_view lexeme.entry)) again)) }
        ensures passed { OnOk result (Passed self.old self.new) }
    {
        self.fault_between(start, self.rest, kind)?;
        self.found_word(start, lexeme)
    }

    /// Adds a fault at the first `n` bytes of `start`.
    pub(crate) fn fault_first(
        &mut self,
        start: &str,
        n: usize,
        kind: WordFaultKind,
    ) -> Result<(), AllocError>
        requires { n ≤ length start.now × length start.now ≤ length self.old.text.now }
        ensures read { Builds (λ x. x) self.old self.new result
            (fault_first (length self.old.text.now) start.now n kind) }
        ensures passed { OnOk result (Passed self.old self.new) }
    {
        let offset = self.text.len() - start.len();
        let span = Span::new(offset, offset + n);
        self.faults.push(WordFault { kind, span })?;
        Ok(())
    }

    /// Adds a fault in place of which there is no word, for a turn that goes on.
    pub(crate) fn odd_between(
        &mut self,
        start: &'a str,
        end: &'a str,
        kind: WordFaultKind,
    ) -> Result<bool, AllocError>
        requires { length end.now ≤ length start.now }
        ensures read { Builds goes_on self.old self.new result
            (then (odd_between (length self.old.text.now) start.now end.now kind) again) }
        ensures passed { OnOk result (Passed self.old self.new) }
    {
        self.fault_between(start, end, kind)?;
        self.word_between(start, end, Lexeme::Fault)?;
        Ok(true)
    }
}

/// The span from where `start` begins to where `end` does, two rests of the text.
fn span_between(text: &str, start: &str, end: &str) -> Span
    requires { length end.now ≤ length start.now }
    ensures { result ≡ span_between (length text.now) start.now end.now }
{
    let start = text.len().saturating_sub(start.len());
    let end = text.len().saturating_sub(end.len());
    Span::new(start, end)
}
