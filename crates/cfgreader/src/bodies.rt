//! The parts of a production: its symbols, `%prec` and `%empty`.

ghost use Rattle.std.specs.Prelude.{◌≡◌, ◌≤◌, ℕ, [], ◌∷◌, IfSome, OnOk, length};
ghost use Rattle.constructs.specs.Construct.{again, then};
ghost use Rattle.cfgwords.specs.Text.{offset_of};
ghost use Rattle.cfgreader.specs.Inner.Builds.{part_view, parts_view};
ghost use Rattle.cfgreader.specs.Rules.{empty, prefix_part, prefix_parts, may_follow_empty, more_parts, no_parts};
ghost use Rattle.cfgreader.specs.Rules.{part, precedence, symbol_part, with_parts};

use super::reader::{ReadFault, Reader};
use cfgwords::fault::FaultKind;
use cfgwords::words::Token;
use std::alloc::{AllocError, Global};

/// A part of a production.
#[derive(Clone, Copy)]
pub(super) enum Part<'a> {
    /// A symbol.
    Symbol(Token<'a>),
    /// The token after a `%prec`.
    Precedence(Token<'a>),
    /// An `%empty`, and the offset in bytes where it ends.
    Nullable(usize),
}

/// What was read of a production.
#[derive(Drop)]
pub(super) struct Parts<'a> {
    /// Its symbols, in order.
    pub(super) symbols: Vec<Token<'a>>,
    /// The tokens after its `%prec`s, in order.
    pub(super) precedences: Vec<Token<'a>>,
    /// The offset in bytes where its last part ends.
    pub(super) end: Option<usize>,
}

impl<'a> Parts<'a> {
    /// No parts.
    pub(super) fn new(alloc: Global) -> Self
        ensures { parts_view result ≡ no_parts }
    {
        Parts {
            symbols: Vec::new(alloc),
            precedences: Vec::new(alloc),
            end: None,
        }
    }

    /// Removes all parts.
    fn clear(&mut self)
        ensures { parts_view self.new ≡ no_parts }
    {
        self.symbols.clear();
        self.precedences.clear();
        self.end = None;
    }

    /// Adds a part.
    ///
    /// # Errors
    ///
    /// `AllocError` if an allocation fails.
    fn add(&mut self, part: Part<'a>) -> Result<(), AllocError>
        ensures { OnOk result (parts_view self.new ≡ with_parts (parts_view self.old) (part_view part.entry ∷ [])) }
    {
        match part {
            Part::Symbol(token) => {
                self.end = Some(token.end);
                self.symbols.push(token)?;
            }
            Part::Precedence(token) => {
                self.end = Some(token.end);
                self.precedences.push(token)?;
            }
            Part::Nullable(end) => self.end = Some(end),
        }
        Ok(())
    }
}

impl<'a> Reader<'a> {
    ghost use Rattle.cfgreader.specs.Inner.Builds.{Builds, AddsPart};

    /// Passes what follows `%prec`, and adds the token.
    #[tactic(auto, unfolding(crate::specs::Rules::precedence))]
    fn precedence(&mut self, parts: &mut Parts<'a>) -> Result<bool, ReadFault>
        ensures { AddsPart self.old self.new parts.old parts.new result (then (precedence self.old.len) again) }
    {
        self.blank(true)?;
        let token = self.token()?;
        self.tree.use_precedence(self.alloc, token.word())?;
        self.blank(true)?;
        parts.add(Part::Precedence(token))?;
        Ok(true)
    }

    /// Whether the text begins with `|`, `;`, an action or `%prec`.
    fn may_follow_empty(&self) -> bool
        ensures { result ≡ may_follow_empty self.now.rest.now }
    {
        matches!(self.rest.as_bytes(), [b'|' | b';' | b'{', ..]) || self.holds("%prec")
    }

    /// Passes the blank after the `%empty` that begins at `text`, and adds the `%empty`.
    #[tactic(auto, unfolding(crate::specs::Rules::empty))]
    fn empty(&mut self, parts: &mut Parts<'a>, text: &'a str) -> Result<bool, ReadFault>
        ensures { AddsPart self.old self.new parts.old parts.new result (then (empty self.old.len text.now) again) }
    {
        let end = self.offset();
        self.blank(true)?;
        if self.may_follow_empty() {
            parts.add(Part::Nullable(end))?;
            Ok(true)
        } else {
            Err(self.fault_at(FaultKind::NonEmptyProduction, text))
        }
    }

    /// Passes and adds a part of a production before its first symbol, if there is one here, and returns whether there
    /// is.
    #[tactic(auto, unfolding(crate::specs::Rules::prefix_part))]
    fn prefix_part(&mut self, parts: &mut Parts<'a>) -> Result<bool, ReadFault>
        ensures { AddsPart self.old self.new parts.old parts.new result (prefix_part self.old.len) }
    {
        let text = self.rest;
        if self.accept("%prec") {
            self.precedence(parts)
        } else if self.accept("%empty") {
            self.empty(parts, text)
        } else {
            Ok(false)
        }
    }

    /// Passes and adds a symbol, if there is one here, and passes the blank after it; notes a quoted token. Returns
    /// whether there is one.
    #[tactic(auto, unfolding(crate::specs::Rules::symbol_part))]
    fn symbol(&mut self, parts: &mut Parts<'a>) -> Result<bool, ReadFault>
        ensures { AddsPart self.old self.new parts.old parts.new result (symbol_part self.old.len) }
    {
        match self.next_token() {
            Some(token) => {
                parts.add(Part::Symbol(token))?;
                self.blank(true)?;
                if token.quoted {
                    self.tree.quote_token(self.alloc, token.word())?;
                }
                Ok(true)
            }
            None => Ok(false),
        }
    }

    /// Passes and adds a part of a production from its first symbol on, if there is one here, and returns whether there
    /// is. An `%empty` is a fault here.
    #[tactic(auto, unfolding(crate::specs::Rules::part, crate::specs::Rules::misplaced_empty))]
    fn later_part(&mut self, parts: &mut Parts<'a>) -> Result<bool, ReadFault>
        ensures { AddsPart self.old self.new parts.old parts.new result (part self.old.len) }
    {
        let text = self.rest;
        if self.accept("%prec") {
            self.precedence(parts)
        } else if self.accept("%empty") {
            self.blank(true)?;
            Err(self.fault_at(FaultKind::NonEmptyProduction, text))
        } else {
            self.symbol(parts)
        }
    }

    /// Passes the parts of a production before its first symbol. They replace those in `parts`, whose lists are used
    /// again.
    pub(super) fn prefix_parts(&mut self, parts: &mut Parts<'a>) -> Result<(), ReadFault>
        ensures read { Builds (λ _. parts_view parts.new) self.old self.new result (prefix_parts self.old.len) }
        ensures ends { OnOk result (IfSome parts.new.end (λ end. offset_of self.old.len self.old.rest.now ≤ end)) }
        ensures shorter { OnOk result (length self.new.rest.now ≤ length self.old.rest.now) }
    {
        parts.clear();
        while self.prefix_part(parts)? {}
        Ok(())
    }

    /// Passes the parts of a production from its first symbol on, and adds them to those before.
    pub(super) fn more_parts(&mut self, parts: &mut Parts<'a>) -> Result<(), ReadFault>
        ensures read { Builds (λ _. parts_view parts.new) self.old self.new result
            (more_parts self.old.len (parts_view parts.old)) }
        ensures ends { (start : ℕ) → start ≤ offset_of self.old.len self.old.rest.now
            → IfSome parts.old.end (λ end. start ≤ end)
            → OnOk result (IfSome parts.new.end (λ end. start ≤ end)) }
        ensures shorter { OnOk result (length self.new.rest.now ≤ length self.old.rest.now) }
    {
        while self.later_part(parts)? {}
        Ok(())
    }
}
