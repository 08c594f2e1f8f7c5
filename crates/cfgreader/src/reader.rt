//! The reader: an offset in the text, and the tree of what was read so far.

ghost use Rattle.std.specs.Prelude.{◌≡◌, ◌≤◌, length, [], Some, None, Ok, MatchBool, IfOk, IfSome};
ghost use Rattle.std.specs.String.{string_bytes};
ghost use Rattle.constructs.specs.Construct.{expect};
ghost use Rattle.constructs.specs.Pieces.{strip};
ghost use Rattle.cfgwords.specs.Text.{offset_of, fault_at};
ghost use Rattle.cfgreader.specs.Here.{is_open, holds, blank_here, name_here, token_here, integer_here};
ghost use Rattle.cfgreader.specs.Here.{line_rest_here, epp_string_here, colon_text_here};

use super::bodies::Parts;
use cfgbase::Span;
use cfgitems::{AstBuilder, Syntax};
use cfgwords::blank::Prefix;
use cfgwords::bytes::ByteClass;
use cfgwords::colon_text::text_to_colon;
use cfgwords::fault::{Fault, FaultKind};
use cfgwords::run::run;
use cfgwords::strings::{leading_string, unescaped};
use cfgwords::words::{Token, Word, leading_integer, leading_name, leading_token};
use constructs::after_word;
use std::alloc::{AllocError, Global};

/// Why a reader stopped.
#[derive(Drop)]
pub(crate) enum ReadFault {
    OutOfMemory,
    Fault(Fault),
}

impl From<AllocError> for ReadFault {
    ghost use Rattle.cfgreader.specs.declared.reader.ReadFault.TheVariants.{OutOfMemory};

    ghost from_gives = { λ _ e. e ≡ OutOfMemory };

    fn from(_error: AllocError) -> ReadFault {
        ReadFault::OutOfMemory
    }
}

/// Reads a text of `len` bytes from its start: `rest` is the unread suffix, and `tree` holds what was read.
#[derive(Drop)]
pub(crate) struct Reader<'a> {
    pub(crate) alloc: Global,
    pub(crate) len: usize,
    pub(crate) rest: &'a str,
    pub(crate) tree: AstBuilder,
    /// The lists that the parts of one production after another are read into.
    pub(crate) parts: Parts<'a>,
    ghost within: { length rest.now ≤ len },
}

impl<'a> Reader<'a> {
    ghost use Rattle.cfgreader.specs.Inner.Builds.{Builds, IsPartHere, IsNameHere, IsTokenHere};
    ghost use Rattle.cfgitems.specs.SyntaxView.{syntax_view, syntax_built, word_view, token_view};
    ghost use Rattle.cfgitems.specs.Syntax.{syntax_of};

    /// Before the rest of a text of `len` bytes, with nothing read.
    pub(super) fn new(alloc: Global, len: usize, rest: &'a str) -> Self
        requires { length rest.now ≤ len }
        ensures offset { (result.rest.now ≡ rest.now) × (result.len ≡ len) }
        ensures tree { syntax_built result.tree ≡ syntax_of [] }
    {
        Reader {
            alloc,
            len,
            rest,
            tree: AstBuilder::new(alloc),
            parts: Parts::new(alloc),
        }
    }

    /// What was read.
    pub(super) fn into_syntax(self) -> Syntax
        ensures { syntax_view result ≡ syntax_built self.entry.tree }
    {
        self.tree.finish()
    }

    /// The offset of the rest, in bytes.
    pub(super) fn offset(&self) -> usize
        ensures { result ≡ offset_of self.now.len self.now.rest.now }
    {
        self.len - self.rest.len()
    }

    /// A fault where `text` begins.
    pub(super) fn fault_at(&self, kind: FaultKind, text: &str) -> ReadFault
        ensures { result ≡ ReadFault.Fault (fault_at self.now.len kind text.now) }
    {
        let offset = self.len.saturating_sub(text.len());
        ReadFault::Fault(Fault {
            kind,
            span: Span::new(offset, offset),
        })
    }

    /// A fault right here.
    pub(super) fn fault(&self, kind: FaultKind) -> ReadFault
        ensures { result ≡ ReadFault.Fault (fault_at self.now.len kind self.now.rest.now) }
    {
        self.fault_at(kind, self.rest)
    }

    /// Whether this is not the text's end.
    pub(super) fn is_open(&self) -> bool
        ensures { result ≡ is_open self.now.rest.now }
    {
        match self.rest.as_bytes() {
            [] => false,
            [_, ..] => true,
        }
    }

    /// Whether the rest begins with the word.
    pub(super) fn holds(&self, word: &str) -> bool
        ensures { result ≡ holds word.now self.now.rest.now }
    {
        after_word(self.rest, word).is_some()
    }

    /// Passes the word, if the rest begins with it.
    pub(super) fn accept(&mut self, word: &str) -> bool
        ensures passed { MatchBool result
            ((strip word.now self.old.rest.now ≡ Some self.new.rest.now) × (self.new.len ≡ self.old.len)
            × (self.new.tree ≡ self.old.tree))
            ((strip word.now self.old.rest.now ≡ None) × (self.new ≡ self.old)) }
        ensures shorter { length self.new.rest.now ≤ length self.old.rest.now }
    {
        match after_word(self.rest, word) {
            Some(rest) => {
                self.rest = rest;
                true
            }
            None => false,
        }
    }

    /// Passes the word that must be here; otherwise there is a fault of the kind.
    pub(super) fn expect(&mut self, word: &str, kind: FaultKind) -> Result<(), ReadFault>
        ensures { Builds (λ x. x) self.old self.new result (expect word.now (fault_at self.old.len kind)) }
    {
        if self.accept(word) {
            Ok(())
        } else {
            Err(self.fault(kind))
        }
    }

    /// The next part of a blank: the rest after it, or None if the blank ends here.
    fn blank_part(&self, lines: bool) -> Result<Option<&'a str>, ReadFault>
        ensures { IsPartHere lines self.now result }
    {
        match Prefix::of(self.rest).part(lines) {
            Ok(part) => Ok(part),
            Err(kind) => Err(self.fault(kind)),
        }
    }

    /// Passes the blank that begins here; if `lines` is false, it may not pass a line's end.
    pub(super) fn blank(&mut self, lines: bool) -> Result<(), ReadFault>
        ensures { Builds (λ x. x) self.old self.new result (blank_here self.old.len lines) }
    {
        while let Some(rest) = self.blank_part(lines)? {
            self.rest = rest;
        }
        Ok(())
    }

    /// Passes the name here, if there is one.
    pub(super) fn next_name(&mut self) -> Option<Word<'a>>
        ensures { IsNameHere self.old self.new result }
    {
        match leading_name(self.rest) {
            Some((name, rest)) => {
                let start = self.offset();
                self.rest = rest;
                let span = Span::new(start, start + name.len());
                Some(Word { name, span })
            }
            None => None,
        }
    }

    /// Passes the name that must be here.
    pub(super) fn name(&mut self) -> Result<Word<'a>, ReadFault>
        ensures { Builds word_view self.old self.new result (name_here self.old.len) }
    {
        match self.next_name() {
            Some(name) => Ok(name),
            None => Err(self.fault(FaultKind::IllegalName)),
        }
    }

    /// Passes the integer that must be here, and returns it with its span.
    pub(super) fn integer(&mut self) -> Result<(usize, Span), ReadFault>
        ensures { Builds (λ x. x) self.old self.new result (integer_here self.old.len) }
    {
        match leading_integer(self.rest) {
            Some((number, rest)) => {
                let start = self.offset();
                self.rest = rest;
                Ok((number, Span::new(start, self.offset())))
            }
            None => Err(self.fault(FaultKind::IllegalInteger)),
        }
    }

    /// Passes the rest of the line.
    pub(super) fn line_rest(&mut self) -> &'a str
        ensures { Builds (λ x. x.now) self.old self.new (Ok result) (line_rest_here self.old.len) }
    {
        let (line, rest) = run(self.rest, ByteClass::Line);
        self.rest = rest;
        line
    }

    /// Passes the string of an `%epp`, which must be here, and returns its value.
    #[tactic(auto, unfolding(cfgwords::specs::Strings::epp_string))]
    pub(super) fn epp_string(&mut self) -> Result<String, ReadFault>
        ensures { Builds string_bytes self.old self.new result (epp_string_here self.old.len) }
    {
        match leading_string(self.rest) {
            Ok((inside, rest)) => {
                let value = unescaped(self.alloc, inside)?;
                self.rest = rest;
                Ok(value)
            }
            Err(left) => Err(self.fault_at(FaultKind::InvalidString, left)),
        }
    }

    /// Passes the text up to a single colon, which must follow, and returns it trimmed.
    #[tactic(auto, unfolding(cfgwords::specs::ColonText::colon_text))]
    pub(super) fn colon_text(&mut self) -> Result<&'a str, ReadFault>
        ensures { Builds (λ x. x.now) self.old self.new result (colon_text_here self.old.len) }
    {
        match text_to_colon(self.rest) {
            Some((text, rest)) => {
                self.rest = rest;
                Ok(text)
            }
            None => Err(self.fault_at(FaultKind::ReachedEOL, "")),
        }
    }

    /// Passes the token here, if there is one.
    pub(super) fn next_token(&mut self) -> Option<Token<'a>>
        ensures read { IsTokenHere self.old self.new result }
        ensures after { IfSome result (λ token. offset_of self.old.len self.old.rest.now ≤ token.end) }
    {
        match leading_token(self.rest) {
            Some((name, quoted, rest)) => {
                let offset = self.offset();
                let start = if quoted { offset + 1 } else { offset };
                self.rest = rest;
                Some(Token {
                    name,
                    span: Span::new(start, start + name.len()),
                    quoted,
                    end: self.offset(),
                })
            }
            None => None,
        }
    }

    /// Passes the token that must be here.
    pub(super) fn token(&mut self) -> Result<Token<'a>, ReadFault>
        ensures read { Builds token_view self.old self.new result (token_here self.old.len) }
        ensures after { IfOk result (λ token. offset_of self.old.len self.old.rest.now ≤ token.end) }
    {
        match self.next_token() {
            Some(token) => Ok(token),
            None => Err(self.fault(FaultKind::IllegalString)),
        }
    }
}
