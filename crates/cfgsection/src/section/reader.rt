//! The reader of a section: an offset in the text, and the entries that were read.

ghost use Rattle.std.specs.Prelude.{◌≡◌, ◌+◌, ◌≤◌, length, [], Some, None, Ok, MatchBool, IfOk};
ghost use Rattle.constructs.specs.Construct.{expect, goes_on};
ghost use Rattle.constructs.specs.Pieces.{strip};
ghost use Rattle.cfgwords.specs.Text.{offset_of};
ghost use Rattle.cfgerrors.specs.HeaderErrors.{error_kind_view};
ghost use Rattle.cfgsection.specs.SectionGrammar.{begins, goes_on_before, unexpected_star, fault_at, wide_character};
ghost use Rattle.cfgsection.specs.SectionGrammar.{white_character, separator, white, separators, comma, name};
ghost use Rattle.cfgsection.specs.SectionGrammar.{name_fault};
ghost use Rattle.cfgkinds.specs.Values.{located_view};

use crate::section::entry::Entry;
use crate::section::fault::{Fault, ReadFault};
use cfgbase::Span;
use cfgerrors::HeaderErrorKind;
use cfgwords::section::leading_section_name;
use constructs::after_word;
use std::alloc::Global;

const GLOB_HINT: &str = "perhaps this is a glob, in which case it requires string quoting.";

/// A star instead of something else.
pub(super) fn unexpected_star() -> HeaderErrorKind
    ensures { error_kind_view result ≡ unexpected_star }
{
    HeaderErrorKind::UnexpectedToken('*', GLOB_HINT)
}

/// Reads a text of `len` bytes: `rest` is the unread suffix, and `entries` were read.
#[derive(Drop)]
pub(crate) struct Reader<'a> {
    pub(crate) alloc: Global,
    pub(crate) len: usize,
    pub(crate) rest: &'a str,
    pub(crate) entries: Vec<Entry>,
    ghost within: { length rest.now ≤ len },
}

impl<'a> Reader<'a> {
    ghost use Rattle.cfgsection.specs.Inner.Steps.{Builds, entries_of, fault_view};

    /// Before the rest of a text of `len` bytes, with nothing read.
    pub(super) fn new(alloc: Global, len: usize, rest: &'a str) -> Self
        requires { length rest.now ≤ len }
        ensures offset { (result.rest.now ≡ rest.now) × (result.len ≡ len) }
        ensures entries { entries_of result ≡ [] }
    {
        Reader {
            alloc,
            len,
            rest,
            entries: Vec::new(alloc),
        }
    }

    /// The entries that were read.
    pub(super) fn into_entries(self) -> Vec<Entry>
        ensures { result ≡ self.entry.entries }
    {
        self.entries
    }

    /// The offset of the rest, in bytes.
    pub(super) fn offset(&self) -> usize
        ensures { result ≡ offset_of self.now.len self.now.rest.now }
    {
        self.len - self.rest.len()
    }

    /// A fault right here.
    pub(super) fn fault(&self, kind: HeaderErrorKind) -> Fault
        ensures { fault_view result ≡ fault_at self.now.len (error_kind_view kind) self.now.rest.now }
    {
        let offset = self.offset();
        Fault {
            kind,
            span: Span::new(offset, offset),
        }
    }

    /// Whether the rest begins with this byte.
    pub(super) fn begins(&self, byte: u8) -> bool
        ensures { result ≡ begins byte self.now.rest.now }
    {
        match self.rest.as_bytes() {
            [] => false,
            [b, ..] => *b == byte,
        }
    }

    /// Whether the rest isn't empty and doesn't begin with this byte.
    pub(super) fn goes_on_before(&self, byte: u8) -> bool
        ensures { result ≡ goes_on_before byte self.now.rest.now }
    {
        match self.rest.as_bytes() {
            [] => false,
            [b, ..] => *b != byte,
        }
    }

    /// Passes the word, if the rest begins with it.
    pub(super) fn accept(&mut self, word: &str) -> bool
        ensures { MatchBool result
            ((strip word.now self.old.rest.now ≡ Some self.new.rest.now) × (self.new.len ≡ self.old.len)
            × (self.new.entries ≡ self.old.entries)
            × (length self.new.rest.now + length word.now ≡ length self.old.rest.now))
            ((strip word.now self.old.rest.now ≡ None) × (self.new ≡ self.old)) }
    {
        match after_word(self.rest, word) {
            Some(rest) => {
                self.rest = rest;
                true
            }
            None => false,
        }
    }

    /// Passes the word that must be here.
    pub(super) fn expect(&mut self, word: &str, kind: HeaderErrorKind) -> Result<(), ReadFault>
        ensures { Builds (λ x. x) self.old self.new result
            (expect word.now (fault_at self.old.len (error_kind_view kind))) }
    {
        if self.accept(word) {
            Ok(())
        } else {
            Err(ReadFault::Fault(self.fault(kind)))
        }
    }

    /// Passes a character of white space beyond ASCII, and returns whether there was one.
    #[tactic(auto, unfolding(crate::specs::SectionGrammar::wide_character))]
    fn wide_character(&mut self) -> bool
        ensures { Builds goes_on self.old self.new (Ok result) wide_character }
    {
        self.accept("\u{85}")
            || self.accept("\u{200e}")
            || self.accept("\u{200f}")
            || self.accept("\u{2028}")
            || self.accept("\u{2029}")
    }

    /// Passes a character of white space, and returns whether there was one.
    #[tactic(auto, unfolding(crate::specs::SectionGrammar::white_character))]
    fn white_character(&mut self) -> bool
        ensures { Builds goes_on self.old self.new (Ok result) white_character }
    {
        self.accept("\t")
            || self.accept("\n")
            || self.accept("\u{b}")
            || self.accept("\u{c}")
            || self.accept("\r")
            || self.accept(" ")
            || self.wide_character()
    }

    /// Passes a comma or a character of white space, and returns whether there was one.
    #[tactic(auto, unfolding(crate::specs::SectionGrammar::separator))]
    fn separator(&mut self) -> bool
        ensures { Builds goes_on self.old self.new (Ok result) separator }
    {
        self.accept(",") || self.white_character()
    }

    /// Passes the white space that begins here.
    pub(super) fn white(&mut self)
        ensures { Builds (λ x. x) self.old self.new (Ok result) white }
    {
        while self.white_character() {}
    }

    /// Passes the white space and the commas that begin here.
    pub(super) fn separators(&mut self)
        ensures { Builds (λ x. x) self.old self.new (Ok result) separators }
    {
        while self.separator() {}
    }

    /// Passes a comma and the white space after it, if there is one, and returns whether there was.
    #[tactic(auto, unfolding(crate::specs::SectionGrammar::comma))]
    pub(super) fn comma(&mut self) -> bool
        ensures { Builds (λ x. x) self.old self.new (Ok result) comma }
    {
        if self.accept(",") {
            self.white();
            true
        } else {
            false
        }
    }

    /// The fault if there is no name.
    fn name_fault(&self) -> Fault
        ensures { fault_view result ≡ name_fault self.now.len self.now.rest.now }
    {
        if self.begins(b'*') {
            self.fault(unexpected_star())
        } else {
            self.fault(HeaderErrorKind::IllegalName)
        }
    }

    /// Passes the name that must be here, and returns it in lower case with its span.
    #[tactic(auto, unfolding(crate::specs::SectionGrammar::name))]
    pub(super) fn name(&mut self) -> Result<(String, Span), ReadFault>
        ensures read { Builds located_view self.old self.new result (name self.old.len) }
        ensures after { IfOk result (λ name. offset_of self.old.len self.old.rest.now ≤ name.1.end) }
    {
        match leading_section_name(self.rest) {
            Some((word, rest)) => {
                let start = self.offset();
                let mut name = String::from_str(self.alloc, word)?;
                name.make_ascii_lowercase();
                self.rest = rest;
                Ok((name, Span::new(start, start + word.len())))
            }
            None => Err(ReadFault::Fault(self.name_fault())),
        }
    }
}
