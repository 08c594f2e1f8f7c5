//! Words that code is in: braces, predicates and prologues; the epilogue.

ghost use Rattle.std.specs.Prelude.{◌≡◌, ◌≤◌, length, OnOk};
ghost use Rattle.constructs.specs.Construct.{goes_on, repeat};
ghost use Rattle.bison_words.specs.NestedHere.{closing};
ghost use Rattle.bison_words.specs.Code.{braces, code, predicate, code_piece};
ghost use Rattle.bison_words.specs.Code.{prologue_piece, prologue};
ghost use Rattle.bison_words.specs.Words.{lexeme_view};
ghost use Rattle.bison_words.specs.Inner.Bodies.{braces_lexeme};

use crate::class::Class;
use crate::code::without_brace;
use crate::nesting::{Nesting, after_piece, outermost};
use crate::runs::{before, begins};
use crate::scanner::Scanner;
use crate::words::{Code, Lexeme, WordFaultKind};
use cfgbase::Span;
use std::alloc::AllocError;

impl<'a> Scanner<'a> {
    ghost use Rattle.bison_words.specs.Suffixes.{IsSuffix};
    ghost use Rattle.bison_words.specs.Inner.Builds.{Builds, Passed};

    /// Passes code up to the brace that closes it, and returns whether there is one.
    fn closing_brace(&mut self) -> Result<bool, AllocError>
        ensures read { Builds (λ x. x) self.old self.new result (closing (code_piece (length self.old.text.now))) }
        ensures passed { OnOk result (Passed self.old self.new) }
    {
        let mut depth = outermost();
        while let Some(piece) = self.code_piece()? {
            match after_piece(piece, depth) {
                Some(next) => depth = next,
                None => return Ok(true),
            }
        }
        Ok(false)
    }

    /// What the word is whose brace precedes `opened`, and which ends here.
    fn braces_lexeme(&self, opened: &'a str, is_predicate: bool) -> Lexeme<'a>
        requires { IsSuffix opened.now self.now.rest.now }
        ensures { lexeme_view result
            ≡ braces_lexeme (length self.now.text.now) is_predicate opened.now self.now.rest.now }
    {
        if is_predicate {
            return Lexeme::Predicate;
        }
        let text = without_brace(before(opened, self.rest)).trim();
        let start = self.text.len().saturating_sub(opened.len());
        let span = Span::new(start, start + text.len());
        Lexeme::Code(Code { text, span })
    }

    /// Passes braces and the code in them, of a word that begins at `start`.
    #[tactic(auto, unfolding(crate::specs::Code::braces, crate::specs::Code::code_end))]
    fn braces(&mut self, start: &'a str, is_predicate: bool) -> Result<bool, AllocError>
        requires { length self.old.rest.now ≤ length start.now }
        ensures read { Builds goes_on self.old self.new result
            (braces (length self.old.text.now) start.now (braces_lexeme (length self.old.text.now) is_predicate)) }
        ensures passed { OnOk result (Passed self.old self.new) }
    {
        if !self.accept("{") {
            return Ok(false);
        }
        let opened = self.rest;
        if !self.closing_brace()? {
            return self.odd_between(start, opened, WordFaultKind::IncompleteCode);
        }
        let lexeme = self.braces_lexeme(opened, is_predicate);
        self.found_word(start, lexeme)
    }

    #[tactic(auto, unfolding(crate::specs::Code::code))]
    pub(crate) fn code(&mut self) -> Result<bool, AllocError>
        ensures read { Builds goes_on self.old self.new result (code (length self.old.text.now)) }
        ensures passed { OnOk result (Passed self.old self.new) }
    {
        self.braces(self.rest, false)
    }

    #[tactic(auto, unfolding(crate::specs::Code::predicate))]
    pub(crate) fn predicate(&mut self) -> Result<bool, AllocError>
        ensures read { Builds goes_on self.old self.new result (predicate (length self.old.text.now)) }
        ensures passed { OnOk result (Passed self.old self.new) }
    {
        let start = self.rest;
        if !self.accept("%?") {
            return Ok(false);
        }
        self.pass(Class::Space);
        self.braces(start, true)
    }

    #[tactic(auto, unfolding(crate::specs::Code::prologue_piece))]
    fn prologue_piece(&mut self) -> Result<Option<Nesting>, AllocError>
        ensures read { Builds (λ x. x) self.old self.new result (prologue_piece (length self.old.text.now)) }
        ensures passed { OnOk result (Passed self.old self.new) }
    {
        if begins(self.rest, "%}") {
            return Ok(None);
        }
        self.code_piece()
    }

    fn prologue_pieces(&mut self) -> Result<(), AllocError>
        ensures read { Builds (λ x. x) self.old self.new result
            (repeat (prologue_piece (length self.old.text.now))) }
        ensures passed { OnOk result (Passed self.old self.new) }
    {
        while let Some(_piece) = self.prologue_piece()? {}
        Ok(())
    }

    #[tactic(auto, unfolding(crate::specs::Code::prologue, crate::specs::Code::prologue_end))]
    pub(crate) fn prologue(&mut self) -> Result<bool, AllocError>
        ensures read { Builds goes_on self.old self.new result (prologue (length self.old.text.now)) }
        ensures passed { OnOk result (Passed self.old self.new) }
    {
        let start = self.rest;
        if !self.accept("%{") {
            return Ok(false);
        }
        let opened = self.rest;
        self.prologue_pieces()?;
        if self.accept("%}") {
            return self.found_word(start, Lexeme::Prologue);
        }
        self.odd_between(start, opened, WordFaultKind::IncompletePrologue)
    }

    /// Passes the epilogue.
    pub(crate) fn code_pieces(&mut self) -> Result<(), AllocError>
        ensures read { Builds (λ x. x) self.old self.new result
            (repeat (code_piece (length self.old.text.now))) }
        ensures passed { OnOk result (Passed self.old self.new) }
    {
        while let Some(_piece) = self.code_piece()? {}
        Ok(())
    }
}
