//! Code: what is between braces, in a prologue, and in the epilogue.

ghost use Rattle.std.specs.Prelude.{◌≡◌, ◌≤◌, ◌+◌, length, Some, OnOk};
ghost use Rattle.constructs.specs.Construct.{goes_on, repeat};
ghost use Rattle.bison_words.specs.Code.{is_splice, splice, splice_turn, splices, line_part};
ghost use Rattle.bison_words.specs.Code.{comment_part, escaped_part, quotes_part, less_piece, percent_piece};
ghost use Rattle.bison_words.specs.Code.{without_brace, code_comment, slash_piece, code_quotes, code_piece};

use crate::blanks::from_end;
use crate::class::Class;
use crate::nesting::Nesting;
use crate::runs::{begins, run};
use crate::scanner::Scanner;
use crate::words::WordFaultKind;
use constructs::after_word;
use std::alloc::AllocError;

/// Whether the text begins with a backslash at the end of a line, where blanks may follow it.
#[tactic(auto, unfolding(crate::specs::Code::is_splice))]
fn is_splice(text: &str) -> bool
    ensures { result ≡ is_splice text.now }
{
    match after_word(text, "\\") {
        Some(rest) => {
            let line = run(rest, Class::Gap).1;
            begins(line, "\r\n") || begins(line, "\n")
        }
        None => false,
    }
}

/// The text without the brace at its end.
pub(crate) fn without_brace(text: &str) -> &str
    ensures { result.now ≡ without_brace text.now }
{
    if from_end(text.as_bytes(), 1) == b'}' {
        text.split_at(text.len().saturating_sub(1)).0
    } else {
        text
    }
}

impl<'a> Scanner<'a> {
    ghost use Rattle.bison_words.specs.Inner.Builds.{Builds, Passed};

    /// Passes a splice.
    #[tactic(auto, unfolding(crate::specs::Code::splice))]
    fn splice(&mut self) -> bool
        ensures read { Builds goes_on self.old self.new (Ok result) splice }
        ensures passed { Passed self.old self.new }
    {
        if !self.accept("\\") {
            return false;
        }
        self.pass(Class::Gap);
        if self.accept("\r\n") {
            return true;
        }
        self.accept("\n")
    }

    #[tactic(auto, unfolding(crate::specs::Code::splice_turn))]
    fn splice_turn(&mut self) -> bool
        ensures read { Builds goes_on self.old self.new (Ok result) splice_turn }
        ensures passed { Passed self.old self.new }
    {
        is_splice(self.rest) && self.splice()
    }

    /// Passes all splices here.
    fn splices(&mut self)
        ensures read { Builds (λ x. x) self.old self.new (Ok result) splices }
        ensures passed { Passed self.old self.new }
    {
        while self.splice_turn() {}
    }

    /// Passes a part of a line comment.
    #[tactic(auto, unfolding(crate::specs::Code::line_part))]
    fn line_part(&mut self) -> bool
        ensures read { Builds goes_on self.old self.new (Ok result) line_part }
        ensures passed { Passed self.old self.new }
    {
        if is_splice(self.rest) {
            return self.splice();
        }
        if self.accept("\\") {
            return true;
        }
        if let Some(_text) = self.some(Class::CommentLine) {
            return true;
        }
        false
    }

    /// Passes the rest of a line comment, up to the line's end.
    fn line_comment(&mut self)
        ensures read { Builds (λ x. x) self.old self.new (Ok result) (repeat line_part) }
        ensures passed { Passed self.old self.new }
    {
        while self.line_part() {}
    }

    /// Passes a part of a comment.
    #[tactic(auto, unfolding(crate::specs::Code::comment_part))]
    fn comment_part(&mut self) -> bool
        ensures read { Builds goes_on self.old self.new (Ok result) comment_part }
        ensures passed { Passed self.old self.new }
    {
        if let Some(_text) = self.some(Class::Comment) {
            return true;
        }
        if !self.accept("*") {
            return false;
        }
        self.splices();
        !begins(self.rest, "/")
    }

    /// Passes the parts of a comment.
    fn comment_parts(&mut self)
        ensures read { Builds (λ x. x) self.old self.new (Ok result) (repeat comment_part) }
        ensures passed { Passed self.old self.new }
    {
        while self.comment_part() {}
    }

    /// Passes the rest of the comment that begins at `start`.
    #[tactic(auto, unfolding(crate::specs::Code::code_comment))]
    fn code_comment(&mut self, start: &'a str) -> Result<(), AllocError>
        requires { 2 ≤ length start.now × length start.now ≤ length self.old.text.now }
        ensures read { Builds (λ x. x) self.old self.new result
            (code_comment (length self.old.text.now) start.now) }
        ensures passed { OnOk result (Passed self.old self.new) }
    {
        self.comment_parts();
        if self.accept("/") {
            return Ok(());
        }
        self.fault_first(start, 2, WordFaultKind::IncompleteComment)
    }

    /// Passes what follows a backslash between quotes.
    #[tactic(auto, unfolding(crate::specs::Code::escaped_part))]
    fn escaped_part(&mut self)
        ensures read { Builds (λ _. Some tt) self.old self.new (Ok result) escaped_part }
        ensures passed { Passed self.old self.new }
    {
        self.splices();
        let _ = self.byte(Class::Line);
    }

    /// Passes a part of what is between quotes.
    #[tactic(auto, unfolding(crate::specs::Code::quotes_part))]
    fn quotes_part(&mut self, close: &str) -> bool
        ensures read { Builds goes_on self.old self.new (Ok result) (quotes_part close.now) }
        ensures passed { Passed self.old self.new }
    {
        if begins(self.rest, close) {
            return false;
        }
        if is_splice(self.rest) {
            return self.splice();
        }
        if self.accept("\\") {
            self.escaped_part();
            return true;
        }
        if let Some(_quote) = self.byte(Class::Quote) {
            return true;
        }
        if let Some(_text) = self.some(Class::CodeQuoted) {
            return true;
        }
        false
    }

    /// Passes what is between quotes.
    fn quotes_parts(&mut self, close: &str)
        ensures read { Builds (λ x. x) self.old self.new (Ok result) (repeat (quotes_part close.now)) }
        ensures passed { Passed self.old self.new }
    {
        while self.quotes_part(close) {}
    }

    /// Passes the rest of the quotes that begin at `start`.
    #[tactic(auto, unfolding(crate::specs::Code::code_quotes))]
    fn code_quotes(
        &mut self,
        start: &'a str,
        close: &str,
        kind: WordFaultKind,
    ) -> Result<Option<Nesting>, AllocError>
        requires { 1 ≤ length start.now × length start.now ≤ length self.old.text.now }
        ensures read { Builds (λ x. x) self.old self.new result
            (code_quotes (length self.old.text.now) start.now close.now kind) }
        ensures passed { OnOk result (Passed self.old self.new) }
    {
        self.quotes_parts(close);
        if self.accept(close) {
            return Ok(Some(Nesting::Stays));
        }
        self.fault_first(start, 1, kind)?;
        Ok(Some(Nesting::Stays))
    }

    /// Passes what follows a `/`: a comment, if it is one.
    #[tactic(auto, unfolding(crate::specs::Code::slash_piece))]
    fn slash_piece(&mut self, start: &'a str) -> Result<Option<Nesting>, AllocError>
        requires { 1 + length self.old.rest.now ≤ length start.now × length start.now ≤ length self.old.text.now }
        ensures read { Builds (λ x. x) self.old self.new result
            (slash_piece (length self.old.text.now) start.now) }
        ensures passed { OnOk result (Passed self.old self.new) }
    {
        self.splices();
        if self.accept("*") {
            self.code_comment(start)?;
        } else if self.accept("/") {
            self.line_comment();
        }
        Ok(Some(Nesting::Stays))
    }

    /// Passes what follows a `<`.
    #[tactic(auto, unfolding(crate::specs::Code::less_piece))]
    fn less_piece(&mut self) -> Option<Nesting>
        ensures read { Builds (λ x. x) self.old self.new (Ok result) less_piece }
        ensures passed { Passed self.old self.new }
    {
        self.splices();
        if self.accept("%") {
            return Some(Nesting::Opens);
        }
        let _ = self.accept("<");
        Some(Nesting::Stays)
    }

    /// Passes what follows a `%`.
    #[tactic(auto, unfolding(crate::specs::Code::percent_piece))]
    fn percent_piece(&mut self) -> Option<Nesting>
        ensures read { Builds (λ x. x) self.old self.new (Ok result) percent_piece }
        ensures passed { Passed self.old self.new }
    {
        self.splices();
        if self.accept(">") {
            return Some(Nesting::Lowers);
        }
        Some(Nesting::Stays)
    }

    /// Passes a piece of code, and returns what it is for the nesting of braces; `None` at the text's end.
    #[tactic(auto, unfolding(crate::specs::Code::code_piece))]
    pub(crate) fn code_piece(&mut self) -> Result<Option<Nesting>, AllocError>
        ensures read { Builds (λ x. x) self.old self.new result (code_piece (length self.old.text.now)) }
        ensures passed { OnOk result (Passed self.old self.new) }
    {
        let start = self.rest;
        if let Some(_code) = self.some(Class::CodeByte) {
            return Ok(Some(Nesting::Stays));
        }
        match self.byte(Class::Any) {
            Some(b'/') => self.slash_piece(start),
            Some(b'<') => Ok(self.less_piece()),
            Some(b'%') => Ok(self.percent_piece()),
            Some(b'{') => Ok(Some(Nesting::Opens)),
            Some(b'}') => Ok(Some(Nesting::Closes)),
            Some(b'"') => self.code_quotes(start, "\"", WordFaultKind::IncompleteString),
            Some(_) => self.code_quotes(start, "'", WordFaultKind::IncompleteLiteral),
            None => Ok(None),
        }
    }
}
