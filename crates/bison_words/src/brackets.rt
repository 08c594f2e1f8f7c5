//! Tags, and names in brackets.

ghost use Rattle.std.specs.Prelude.{◌≤◌, length, OnOk};
ghost use Rattle.constructs.specs.Construct.{again, goes_on, then};
ghost use Rattle.bison_words.specs.NestedHere.{closing};
ghost use Rattle.bison_words.specs.Brackets.{tag_piece, tag, inner_name, name_end, name};

use crate::class::Class;
use crate::nesting::{Nesting, after_piece, outermost};
use crate::runs::starts;
use crate::scanner::Scanner;
use crate::words::{Lexeme, WordFaultKind};
use std::alloc::AllocError;

impl<'a> Scanner<'a> {
    ghost use Rattle.bison_words.specs.Inner.Builds.{Builds, Passed};

    /// Passes a piece of a tag, and returns what it is for the nesting; `None` at the text's end.
    #[tactic(auto, unfolding(crate::specs::Brackets::tag_piece))]
    fn tag_piece(&mut self) -> Option<Nesting>
        ensures read { Builds (λ x. x) self.old self.new (Ok result) tag_piece }
        ensures passed { Passed self.old self.new }
    {
        if let Some(_name) = self.some(Class::TagByte) {
            return Some(Nesting::Stays);
        }
        match self.byte(Class::Any) {
            Some(b'<') => Some(Nesting::Opens),
            Some(b'>') => Some(Nesting::Closes),
            Some(_) => {
                let _ = self.accept(">");
                Some(Nesting::Stays)
            }
            None => None,
        }
    }

    /// Passes a tag up to the `>` that closes it, and returns whether there is one.
    fn closing_tag(&mut self) -> bool
        ensures read { Builds (λ x. x) self.old self.new (Ok result) (closing tag_piece) }
        ensures passed { Passed self.old self.new }
    {
        let mut depth = outermost();
        while let Some(piece) = self.tag_piece() {
            match after_piece(piece, depth) {
                Some(next) => depth = next,
                None => return true,
            }
        }
        false
    }

    #[tactic(auto, unfolding(crate::specs::Brackets::tag, crate::specs::Brackets::tag_end))]
    pub(crate) fn tag(&mut self) -> Result<bool, AllocError>
        ensures read { Builds goes_on self.old self.new result (tag (length self.old.text.now)) }
        ensures passed { OnOk result (Passed self.old self.new) }
    {
        let start = self.rest;
        if self.accept("<*>") {
            return self.found_word(start, Lexeme::AnyTag);
        }
        if self.accept("<>") {
            return self.found_word(start, Lexeme::NoTag);
        }
        if !self.accept("<") {
            return Ok(false);
        }
        let opened = self.rest;
        if self.closing_tag() {
            return self.found_word(start, Lexeme::Tag);
        }
        self.odd_between(start, opened, WordFaultKind::IncompleteTag)
    }

    /// Passes an identifier, and returns whether there is one.
    #[tactic(auto, unfolding(crate::specs::Brackets::inner_name))]
    fn inner_name(&mut self) -> bool
        ensures read { Builds (λ x. x) self.old self.new (Ok result) inner_name }
        ensures passed { Passed self.old self.new }
    {
        if starts(self.rest, Class::Letter) {
            self.pass(Class::NameByte);
            return true;
        }
        false
    }

    /// Passes the bracket that closes the name that begins at `start`, and whatever precedes it.
    #[tactic(auto, unfolding(crate::specs::Brackets::name_end, crate::specs::Brackets::name_close))]
    fn name_end(&mut self, start: &'a str, opened: &'a str, found: bool) -> Result<bool, AllocError>
        requires { length self.old.rest.now ≤ length opened.now × length opened.now ≤ length start.now }
        ensures read { Builds goes_on self.old self.new result
            (then (name_end (length self.old.text.now) start.now opened.now found) again) }
        ensures passed { OnOk result (Passed self.old self.new) }
    {
        let close = self.rest;
        match self.first("]") {
            Some(body) if found && body.is_empty() => self.found_word(start, Lexeme::Name),
            Some(_) => {
                self.fault_between(close, close, WordFaultKind::IllegalName)?;
                self.found_word(start, Lexeme::Name)
            }
            None => {
                self.odd_between(start, opened, WordFaultKind::IncompleteName)?;
                self.pass(Class::Any);
                Ok(true)
            }
        }
    }

    #[tactic(auto, unfolding(crate::specs::Brackets::name))]
    pub(crate) fn name(&mut self) -> Result<bool, AllocError>
        ensures read { Builds goes_on self.old self.new result (name (length self.old.text.now)) }
        ensures passed { OnOk result (Passed self.old self.new) }
    {
        let start = self.rest;
        if !self.accept("[") {
            return Ok(false);
        }
        let opened = self.rest;
        self.blank()?;
        let found = self.inner_name();
        self.blank()?;
        self.name_end(start, opened, found)
    }
}
