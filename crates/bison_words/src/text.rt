//! The words of a text.

ghost use Rattle.std.specs.Prelude.{◌≡◌, ◌≤◌, length, Some, IfOk, OnOk};
ghost use Rattle.constructs.specs.Construct.{again, computes, goes_on, then};
ghost use Rattle.bison_words.specs.WordSpans.{AreInText};
ghost use Rattle.bison_words.specs.Words.{IsWords};
ghost use Rattle.bison_words.specs.TextWords.{is_predicate, is_equals, equals, is_mark, directive_end, directive_name};
ghost use Rattle.bison_words.specs.TextWords.{directive, percent, bracketed, word, word_turn, words, epilogue};
ghost use Rattle.bison_words.specs.TextWords.{mark_then, sections, text_words};

use crate::class::Class;
use crate::directive::{Directive, directive_named};
use crate::names::{is_colon, is_identifier};
use crate::runs::{begins, run, starts};
use crate::scanner::Scanner;
use crate::words::{Lexeme, WordFaultKind, Words};
use constructs::after_word;
use std::alloc::{AllocError, Global};

/// Whether the text begins with `%?` and, maybe after blanks, a brace.
#[tactic(auto, unfolding(crate::specs::TextWords::is_predicate))]
fn is_predicate(text: &str) -> bool
    ensures { result ≡ is_predicate text.now }
{
    match after_word(text, "%?") {
        Some(rest) => begins(run(rest, Class::Space).1, "{"),
        None => false,
    }
}

/// Whether the text begins with `=`, maybe after blanks.
#[tactic(auto, unfolding(crate::specs::TextWords::is_equals))]
fn is_equals(text: &str) -> bool
    ensures { result ≡ is_equals text.now }
{
    begins(run(text, Class::Space).1, "=")
}

/// Whether the text begins with `;`, `|`, `=` or a colon.
#[tactic(auto, unfolding(crate::specs::TextWords::is_mark))]
fn is_mark(text: &str) -> bool
    ensures { result ≡ is_mark text.now }
{
    starts(text, Class::Mark) || is_colon(text)
}

impl<'a> Scanner<'a> {
    ghost use Rattle.bison_words.specs.Inner.Builds.{Builds, Passed};

    /// Passes a blank and a `=`.
    #[tactic(auto, unfolding(crate::specs::TextWords::equals))]
    fn equals(&mut self)
        ensures read { Builds (λ x. x) self.old self.new (Ok result) equals }
        ensures passed { Passed self.old self.new }
    {
        self.pass(Class::Space);
        let _ = self.accept("=");
    }

    /// Adds the directive that begins at `start`, with an `=` that belongs to it.
    #[tactic(auto, unfolding(crate::specs::TextWords::directive_end))]
    fn directive_end(&mut self, start: &'a str, directive: Directive) -> Result<bool, AllocError>
        requires { length self.old.rest.now ≤ length start.now }
        ensures read { Builds goes_on self.old self.new result
            (then (directive_end (length self.old.text.now) start.now directive) again) }
        ensures passed { OnOk result (Passed self.old self.new) }
    {
        if directive.takes_equals() && is_equals(self.rest) {
            self.equals();
        }
        self.found_word(start, Lexeme::Directive(directive))
    }

    /// Passes the name of the directive whose `%` is at `start`.
    #[tactic(auto, unfolding(crate::specs::TextWords::directive_name))]
    fn directive_name(&mut self, start: &'a str) -> Result<bool, AllocError>
        requires { length self.old.rest.now ≤ length start.now }
        ensures read { Builds goes_on self.old self.new result
            (directive_name (length self.old.text.now) start.now) }
        ensures passed { OnOk result (Passed self.old self.new) }
    {
        match self.some(Class::NameByte) {
            Some(name) => match directive_named(name) {
                Some(directive) => self.directive_end(start, directive),
                None => self.odd_between(start, self.rest, WordFaultKind::UnknownDirective),
            },
            None => self.odd_between(start, self.rest, WordFaultKind::IllegalCharacters),
        }
    }

    #[tactic(auto, unfolding(crate::specs::TextWords::directive))]
    fn directive(&mut self) -> Result<bool, AllocError>
        ensures read { Builds goes_on self.old self.new result (directive (length self.old.text.now)) }
        ensures passed { OnOk result (Passed self.old self.new) }
    {
        let start = self.rest;
        if !self.accept("%") {
            return Ok(false);
        }
        if starts(self.rest, Class::Letter) {
            return self.directive_name(start);
        }
        self.odd_between(start, self.rest, WordFaultKind::IllegalCharacters)
    }

    /// Passes a word that begins with `%`.
    #[tactic(auto, unfolding(crate::specs::TextWords::percent))]
    fn percent(&mut self) -> Result<bool, AllocError>
        ensures read { Builds goes_on self.old self.new result (percent (length self.old.text.now)) }
        ensures passed { OnOk result (Passed self.old self.new) }
    {
        if begins(self.rest, "%{") {
            self.prologue()
        } else if is_predicate(self.rest) {
            self.predicate()
        } else {
            self.directive()
        }
    }

    /// Passes a word in brackets or quotes, or what can't begin a word.
    #[tactic(auto, unfolding(crate::specs::TextWords::bracketed, crate::specs::Quotes::string))]
    fn bracketed(&mut self) -> Result<bool, AllocError>
        ensures read { Builds goes_on self.old self.new result (bracketed (length self.old.text.now)) }
        ensures passed { OnOk result (Passed self.old self.new) }
    {
        if begins(self.rest, "'") {
            self.literal()
        } else if begins(self.rest, "\"") {
            self.string_word(self.rest, "\"", false)
        } else if begins(self.rest, "<") {
            self.tag()
        } else if begins(self.rest, "[") {
            self.name()
        } else if begins(self.rest, "{") {
            self.code()
        } else {
            self.odd()
        }
    }

    /// Passes a word; there is none at the text's end.
    #[tactic(auto, unfolding(crate::specs::TextWords::word))]
    fn word(&mut self) -> Result<bool, AllocError>
        ensures read { Builds goes_on self.old self.new result (word (length self.old.text.now)) }
        ensures passed { OnOk result (Passed self.old self.new) }
    {
        if begins(self.rest, "%") {
            self.percent()
        } else if begins(self.rest, "_(\"") {
            self.translatable()
        } else if is_identifier(self.rest) {
            self.identifier()
        } else if starts(self.rest, Class::Digit) {
            self.number()
        } else if is_mark(self.rest) {
            self.mark()
        } else {
            self.bracketed()
        }
    }

    /// Passes a blank and a word, unless a `%%` or the text's end follows.
    #[tactic(auto, unfolding(crate::specs::TextWords::word_turn))]
    fn word_turn(&mut self) -> Result<bool, AllocError>
        ensures read { Builds goes_on self.old self.new result (word_turn (length self.old.text.now)) }
        ensures passed { OnOk result (Passed self.old self.new) }
    {
        self.blank()?;
        if begins(self.rest, "%%") {
            return Ok(false);
        }
        self.word()
    }

    /// Passes words up to a `%%` or the text's end.
    fn words(&mut self) -> Result<(), AllocError>
        ensures read { Builds (λ x. x) self.old self.new result (words (length self.old.text.now)) }
        ensures passed { OnOk result (Passed self.old self.new) }
    {
        while self.word_turn()? {}
        Ok(())
    }

    /// Passes a second `%%`, if it is here, and what follows it.
    #[tactic(auto, unfolding(crate::specs::TextWords::mark_then, crate::specs::TextWords::epilogue))]
    fn last_section(&mut self) -> Result<(), AllocError>
        ensures read { Builds (λ x. x) self.old self.new result
            (mark_then (length self.old.text.now) (epilogue (length self.old.text.now))) }
        ensures passed { OnOk result (Passed self.old self.new) }
    {
        let start = self.rest;
        if !self.accept("%%") {
            return Ok(());
        }
        self.word_between(start, self.rest, Lexeme::Mark)?;
        self.epilogue = Some(self.rest);
        self.code_pieces()
    }

    /// Passes words, and what follows a `%%`.
    #[tactic(auto, unfolding(crate::specs::TextWords::sections, crate::specs::TextWords::mark_then))]
    fn sections(&mut self) -> Result<(), AllocError>
        ensures read { Builds (λ x. x) self.old self.new result (sections (length self.old.text.now)) }
        ensures passed { OnOk result (Passed self.old self.new) }
    {
        self.words()?;
        let start = self.rest;
        if !self.accept("%%") {
            return Ok(());
        }
        self.word_between(start, self.rest, Lexeme::Mark)?;
        self.words()?;
        self.last_section()
    }

    /// Passes a whole text.
    #[tactic(auto, unfolding(crate::specs::TextWords::text_words))]
    fn text_words(&mut self) -> Result<(), AllocError>
        ensures read { Builds (λ x. x) self.old self.new result (text_words (length self.old.text.now)) }
    {
        self.line_number();
        self.sections()?;
        self.word_between(self.rest, self.rest, Lexeme::End)
    }
}

/// Reads the words of a text, the faults in them, and what follows the second `%%`. Each span is a piece of the text,
/// and words that aren't faults come in the text's order.
///
/// # Errors
///
/// `AllocError` if an allocation fails.
pub fn read_words<'a>(alloc: Global, text: &'a str) -> Result<Words<'a>, AllocError>
    ensures read { IfOk result (IsWords (computes (text_words (length text.now)) text.now).items) }
    ensures in_text { IfOk result (AreInText text.now) }
{
    let mut scanner = Scanner::new(alloc, text);
    scanner.text_words()?;
    let Scanner {
        words,
        faults,
        epilogue,
        ..
    } = scanner;
    Ok(Words {
        words,
        faults,
        epilogue,
    })
}
