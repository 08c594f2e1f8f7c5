//! Settings: what follows a key's colon.

ghost use Rattle.cfgsection.specs.SectionGrammar.{namespaced, argument, applied, number, element};
ghost use Rattle.cfgsection.specs.SectionGrammar.{elements, array, bare_setting, bracketed, setting};
ghost use Rattle.cfgkinds.specs.Values.{namespaced_view, setting_view};

use crate::section::fault::{Fault, ReadFault};
use crate::section::reader::Reader;
use cfgbase::Span;
use cfgerrors::HeaderErrorKind;
use cfgkinds::{Namespaced, Setting};
use cfgwords::bytes::ByteClass;
use cfgwords::run::{run, starts};
use cfgwords::section::leading_text;
use cfgwords::words::leading_integer;

impl<'a> Reader<'a> {
    ghost use Rattle.cfgsection.specs.Inner.Steps.{Builds, settings_list};

    /// Passes a name, or two names with `::` between them, and the white space after it.
    #[tactic(auto, unfolding(crate::specs::SectionGrammar::namespaced))]
    fn namespaced(&mut self) -> Result<Namespaced<Span>, ReadFault>
        ensures { Builds namespaced_view self.old self.new result (namespaced self.old.len) }
    {
        let first = self.name()?;
        self.white();
        if !self.accept("::") {
            return Ok(Namespaced {
                namespace: None,
                member: first,
            });
        }
        self.white();
        let member = self.name()?;
        self.white();
        Ok(Namespaced {
            namespace: Some(first),
            member,
        })
    }

    /// Passes such a name and the `)` that must follow it.
    #[tactic(auto, unfolding(crate::specs::SectionGrammar::argument))]
    fn argument(&mut self) -> Result<Namespaced<Span>, ReadFault>
        ensures { Builds namespaced_view self.old self.new result (argument self.old.len) }
    {
        let argument = self.namespaced()?;
        self.expect(")", HeaderErrorKind::ExpectedToken(')'))?;
        Ok(argument)
    }

    /// Passes such a name, or two as `a(b)`.
    #[tactic(auto, unfolding(crate::specs::SectionGrammar::applied))]
    fn applied(&mut self) -> Result<Setting<Span>, ReadFault>
        ensures { Builds setting_view self.old self.new result (applied self.old.len) }
    {
        let ctor = self.namespaced()?;
        if !self.accept("(") {
            return Ok(Setting::Unitary(ctor));
        }
        let arg = self.argument()?;
        Ok(Setting::Constructor { ctor, arg })
    }

    /// Passes the number that must be here; otherwise there is a fault over the digits.
    #[tactic(auto, unfolding(crate::specs::SectionGrammar::number))]
    fn number(&mut self) -> Result<Setting<Span>, ReadFault>
        ensures { Builds setting_view self.old self.new result (number self.old.len) }
    {
        let start = self.offset();
        match leading_integer(self.rest) {
            Some((number, rest)) => {
                self.rest = rest;
                Ok(Setting::Num(number as u64, Span::new(start, self.offset())))
            }
            None => {
                let (digits, _) = run(self.rest, ByteClass::Digit);
                Err(ReadFault::Fault(Fault {
                    kind: HeaderErrorKind::InvalidEntry("number"),
                    span: Span::new(start, start + digits.len()),
                }))
            }
        }
    }

    /// A setting of an array, and what is between it and the next one.
    #[cycle(setting)]
    #[tactic(auto, unfolding(crate::specs::SectionGrammar::element))]
    fn element(&mut self, room: usize) -> Result<Setting<Span>, ReadFault>
        ensures { Builds setting_view self.old self.new result (element self.old.len (setting self.old.len room)) }
    {
        let value = self.setting(room)?;
        self.separators();
        Ok(value)
    }

    /// The settings of an array.
    #[cycle(setting)]
    fn elements(&mut self, room: usize) -> Result<Vec<Setting<Span>>, ReadFault>
        ensures { Builds (λ values. settings_list values.items) self.old self.new result
            (elements self.old.len (setting self.old.len room)) }
    {
        let mut values = Vec::new(self.alloc);
        'elements: while self.goes_on_before(b']') {
            let value = self.element(room)?;
            values.push(value)?;
        }
        Ok(values)
    }

    /// Passes what follows the bracket that opens an array.
    #[cycle(setting)]
    #[tactic(auto, unfolding(crate::specs::SectionGrammar::array))]
    fn array(&mut self, room: usize, opens: Span) -> Result<Setting<Span>, ReadFault>
        ensures { Builds setting_view self.old self.new result (array self.old.len (setting self.old.len room) opens) }
    {
        self.separators();
        let values = self.elements(room)?;
        let closing = self.offset();
        self.expect("]", HeaderErrorKind::ExpectedToken(']'))?;
        Ok(Setting::Array(values, opens, Span::new(closing, self.offset())))
    }

    /// The same, if `room` brackets may still open, that one included.
    #[cycle(setting)]
    fn bracketed(&mut self, room: usize, opens: Span) -> Result<Setting<Span>, ReadFault>
        ensures { Builds setting_view self.old self.new result (bracketed self.old.len room opens) }
    {
        if room == 0 {
            let kind = HeaderErrorKind::InvalidEntry("nesting");
            return Err(ReadFault::Fault(Fault { kind, span: opens }));
        }
        self.array(room - 1, opens)
    }

    /// A setting, without the white space after it.
    #[cycle(setting)]
    #[tactic(auto, unfolding(crate::specs::SectionGrammar::bare_setting))]
    fn bare_setting(&mut self, room: usize) -> Result<Setting<Span>, ReadFault>
        ensures { Builds setting_view self.old self.new result
            (bare_setting self.old.len (bracketed self.old.len room)) }
    {
        if starts(self.rest, ByteClass::Digit) {
            return self.number();
        }
        let start = self.offset();
        if let Some((text, rest)) = leading_text(self.rest) {
            let value = String::from_str(self.alloc, text)?;
            self.rest = rest;
            return Ok(Setting::String(value, Span::new(start + 1, start + 1 + text.len())));
        }
        if self.accept("[") {
            let opens = Span::new(start, self.offset());
            self.bracketed(room, opens)
        } else {
            self.applied()
        }
    }

    /// Passes a setting in which `room` brackets may be open at once, and the white space after it.
    #[cycle(setting)]
    #[tactic(auto, unfolding(crate::specs::SectionGrammar::setting, crate::specs::SectionGrammar::setting_by))]
    pub(super) fn setting(&mut self, room: usize) -> Result<Setting<Span>, ReadFault>
        ensures { Builds setting_view self.old self.new result (setting self.old.len room) }
    {
        let value = self.bare_setting(room)?;
        self.white();
        Ok(value)
    }
}
