//! Entries, and the section as a whole.

ghost use Rattle.std.specs.Prelude.{◌≡◌, ◌≤◌, Ok, length};
ghost use Rattle.constructs.specs.Construct.{goes_on};
ghost use Rattle.cfgwords.specs.Text.{offset_of};
ghost use Rattle.cfgsection.specs.SectionGrammar.{end_fault, negated, value_of, entry, entry_turn, entries};
ghost use Rattle.cfgsection.specs.SectionGrammar.{braced, section};
ghost use Rattle.cfgkinds.specs.Values.{located_view};

use crate::section::entry::Entry;
use crate::section::fault::{Fault, ReadFault};
use crate::section::reader::{Reader, unexpected_star};
use cfgbase::Span;
use cfgerrors::HeaderErrorKind;
use cfgkinds::Value;

/// How many brackets may be open at once.
const MOST_BRACKETS: usize = 127;

impl<'a> Reader<'a> {
    ghost use Rattle.cfgsection.specs.SectionReads.{entry_view};
    ghost use Rattle.cfgsection.specs.Inner.Steps.{Builds, fault_view};

    /// Passes what follows a `!` that is at `start`.
    #[tactic(auto, unfolding(crate::specs::SectionGrammar::negated))]
    fn negated(&mut self, start: usize) -> Result<Entry, ReadFault>
        requires { start ≤ offset_of self.old.len self.old.rest.now }
        ensures { Builds entry_view self.old self.new result (negated self.old.len start) }
    {
        let (key, key_span) = self.name()?;
        self.white();
        Ok(Entry {
            key,
            key_span,
            value: Value::Flag(false, Span::new(start, key_span.end())),
        })
    }

    /// Passes what follows a key.
    #[tactic(auto, unfolding(crate::specs::SectionGrammar::value_of))]
    fn value_of(&mut self, key: (String, Span)) -> Result<Entry, ReadFault>
        ensures { Builds entry_view self.old self.new result (value_of self.old.len (located_view key)) }
    {
        let (key, key_span) = key;
        if !self.accept(":") {
            let value = Value::Flag(true, key_span);
            return Ok(Entry {
                key,
                key_span,
                value,
            });
        }
        self.white();
        let value = Value::Setting(self.setting(MOST_BRACKETS)?);
        Ok(Entry {
            key,
            key_span,
            value,
        })
    }

    /// Passes an entry, and the white space after it.
    #[tactic(auto, unfolding(crate::specs::SectionGrammar::entry, crate::specs::SectionGrammar::affirmed))]
    pub(super) fn entry(&mut self) -> Result<Entry, ReadFault>
        ensures { Builds entry_view self.old self.new result (entry self.old.len) }
    {
        let start = self.offset();
        if self.accept("!") {
            return self.negated(start);
        }
        let key = self.name()?;
        self.white();
        self.value_of(key)
    }

    /// Notes the entry here, if there is one, and returns whether the list of entries continues after it.
    #[tactic(auto, unfolding(crate::specs::SectionGrammar::entry_turn))]
    fn entry_turn(&mut self) -> Result<bool, ReadFault>
        ensures { Builds goes_on self.old self.new result (entry_turn self.old.len) }
    {
        if !self.goes_on_before(b'}') {
            return Ok(false);
        }
        let entry = self.entry()?;
        self.entries.push(entry)?;
        Ok(self.comma())
    }

    /// Notes the entries from here on.
    fn entries(&mut self) -> Result<(), ReadFault>
        ensures { Builds (λ x. x) self.old self.new result (entries self.old.len) }
    {
        while self.entry_turn()? {}
        Ok(())
    }

    /// The fault if there is no comma or `}`, in a section whose `{` is at `opening`.
    fn end_fault(&self, opening: usize) -> Fault
        requires { opening ≤ offset_of self.now.len self.now.rest.now }
        ensures { fault_view result ≡ end_fault self.now.len opening self.now.rest.now }
    {
        let offset = self.offset();
        if self.begins(b'*') {
            Fault {
                kind: unexpected_star(),
                span: Span::new(offset, offset + 1),
            }
        } else {
            Fault {
                kind: HeaderErrorKind::ExpectedToken('}'),
                span: Span::new(opening, offset),
            }
        }
    }

    /// Passes the braces and the entries between them.
    #[tactic(auto, unfolding(crate::specs::SectionGrammar::braced))]
    fn braced(&mut self) -> Result<(), ReadFault>
        ensures { Builds (λ x. x) self.old self.new result (braced self.old.len) }
    {
        let opening = self.offset();
        self.expect("{", HeaderErrorKind::ExpectedToken('{'))?;
        self.white();
        self.entries()?;
        if self.accept("}") {
            Ok(())
        } else {
            Err(ReadFault::Fault(self.end_fault(opening)))
        }
    }

    /// Passes the section, and returns the rest after it: the whole text if there is none and none is required.
    #[tactic(auto, unfolding(crate::specs::SectionGrammar::section, crate::specs::SectionGrammar::missing))]
    pub(super) fn section(&mut self, required: bool) -> Result<&'a str, ReadFault>
        ensures { Builds (λ rest. rest.now) self.old self.new result (section self.old.len required) }
    {
        let whole = self.rest;
        self.white();
        if self.accept("%grmtools") {
            self.white();
            self.braced()?;
            return Ok(self.rest);
        }
        if required {
            let kind = HeaderErrorKind::MissingGrmtoolsSection;
            let span = Span::new(0, 0);
            return Err(ReadFault::Fault(Fault { kind, span }));
        }
        Ok(whole)
    }
}
