//! Rules: what follows the first `%%`.

ghost use Rattle.std.specs.Prelude.{◌≡◌, ◌≤◌, IfSome, Some, is_some};
ghost use Rattle.constructs.specs.Construct.{goes_on, repeat, while_test};
ghost use Rattle.cfgwords.specs.Text.{offset_of};
ghost use Rattle.cfgitems.specs.Items.{Alternative};
ghost use Rattle.cfgreader.specs.Inner.Builds.{IsActionHere, parts_view};
ghost use Rattle.cfgreader.specs.FileGrammar.{file, programs};
ghost use Rattle.cfgreader.specs.Rules.{another, end_fault, finish, is_rule_next, production};
ghost use Rattle.cfgreader.specs.Rules.{production_end, rule, rule_body, rule_type};

use super::bodies::Parts;
use super::reader::{ReadFault, Reader};
use cfgbase::Span;
use cfgitems::{Body, RuleHead};
use cfgkinds::YaccKind;
use cfgwords::actions::leading_action;
use cfgwords::fault::FaultKind;
use std::mem;

impl<'a> Reader<'a> {
    ghost use Rattle.cfgreader.specs.Inner.Builds.{Builds};
    ghost use Rattle.cfgitems.specs.SyntaxView.{head_view, body_view};

    /// The fault if there is no `|` or `;`: after an action, or elsewhere in a body.
    fn end_fault(&self, has_action: bool) -> ReadFault
        ensures { result ≡ ReadFault.Fault (end_fault self.now.len has_action self.now.rest.now) }
    {
        match self.rest.as_bytes() {
            _ if has_action => self.fault(FaultKind::ProductionNotTerminated),
            [] => self.fault(FaultKind::IncompleteRule),
            [b'{', ..] => self.fault(FaultKind::IncompleteAction),
            _ => self.fault(FaultKind::IllegalString),
        }
    }

    /// Passes the `|` before another production, or the `;` that ends a rule, and returns whether it was `|`.
    #[tactic(auto, unfolding(crate::specs::Rules::another))]
    fn another(&mut self, has_action: bool) -> Result<bool, ReadFault>
        ensures { Builds (λ x. x) self.old self.new result (another self.old.len has_action) }
    {
        if self.accept("|") {
            Ok(true)
        } else if self.accept(";") {
            Ok(false)
        } else {
            Err(self.end_fault(has_action))
        }
    }

    /// Notes the production that ends here, and returns whether another one follows.
    #[tactic(auto, unfolding(crate::specs::Rules::finish))]
    fn finish(&mut self, head: RuleHead<'a>, body: Body<'_, 'a>) -> Result<bool, ReadFault>
        ensures { Builds goes_on self.old self.new result
            (finish self.old.len (is_some (body_view body.entry).action)
            (Alternative (head_view head.entry) (body_view body.entry))) }
    {
        let follows = self.another(body.action.is_some())?;
        self.tree.add_production(self.alloc, head, body)?;
        self.blank(true)?;
        Ok(follows)
    }

    /// Passes the action here, if there is one, and returns its trimmed text.
    fn next_action(&mut self) -> Option<(&'a str, Span)>
        ensures { IsActionHere self.old self.new result }
    {
        match leading_action(self.rest) {
            Some((action, rest)) => {
                let start = self.offset() + 1;
                self.rest = rest;
                Some((action, Span::new(start, start + action.len())))
            }
            None => None,
        }
    }

    /// Passes the end of the production that begins at `start` and has these parts: its action, if it has one, and what
    /// ends it. Returns whether another production follows.
    #[tactic(auto, unfolding(crate::specs::Rules::production_end))]
    fn production_end(
        &mut self,
        head: RuleHead<'a>,
        start: usize,
        parts: &Parts<'a>,
    ) -> Result<bool, ReadFault>
        requires here { start ≤ offset_of self.old.len self.old.rest.now }
        requires ends { IfSome parts.now.end (λ end. start ≤ end) }
        ensures { Builds goes_on self.old self.new result
            (production_end self.old.len (head_view head.entry) start (parts_view parts.now)) }
    {
        let after = self.offset();
        let action = self.next_action();
        let end = match action {
            Some(_) => after,
            None => parts.end.unwrap_or(after),
        };
        if action.is_some() {
            self.blank(true)?;
        }
        let body = Body {
            symbols: &parts.symbols,
            precedences: &parts.precedences,
            action,
            span: Span::new(start, end),
        };
        self.finish(head, body)
    }

    /// Passes a production of the rule and what ends it, and returns whether another one follows. Its parts replace
    /// those in `parts`.
    #[tactic(auto, unfolding(crate::specs::Rules::production))]
    fn production(&mut self, head: RuleHead<'a>, parts: &mut Parts<'a>) -> Result<bool, ReadFault>
        ensures { Builds goes_on self.old self.new result (production self.old.len (head_view head.entry)) }
    {
        let start = self.offset();
        self.prefix_parts(parts)?;
        self.more_parts(parts)?;
        self.production_end(head, start, parts)
    }

    /// Passes the productions of a rule.
    fn productions(&mut self, head: RuleHead<'a>) -> Result<(), ReadFault>
        ensures { Builds (λ x. x) self.old self.new result (repeat (production self.old.len (head_view head.entry))) }
    {
        let mut parts = mem::replace(&mut self.parts, Parts::new(self.alloc));
        while self.production(head, &mut parts)? {}
        self.parts = parts;
        Ok(())
    }

    /// Passes what is between a rule's name and its colon in a Grmtools file, and returns the type.
    #[tactic(auto, unfolding(crate::specs::Rules::rule_type))]
    fn rule_type(&mut self) -> Result<&'a str, ReadFault>
        ensures { Builds (λ x. Some x.now) self.old self.new result (rule_type self.old.len) }
    {
        self.blank(true)?;
        self.expect("->", FaultKind::MissingRightArrow)?;
        self.blank(true)?;
        self.colon_text()
    }

    /// Passes what follows a rule's name, or its type.
    #[tactic(auto, unfolding(crate::specs::Rules::rule_body))]
    fn rule_body(&mut self, head: RuleHead<'a>) -> Result<(), ReadFault>
        ensures { Builds (λ x. x) self.old self.new result (rule_body self.old.len (head_view head.entry)) }
    {
        self.blank(true)?;
        self.expect(":", FaultKind::MissingColon)?;
        self.blank(true)?;
        self.productions(head)
    }

    /// Passes a rule and the blank after it.
    #[tactic(auto, unfolding(crate::specs::Rules::rule))]
    fn rule(&mut self, kind: YaccKind) -> Result<(), ReadFault>
        ensures { Builds (λ x. x) self.old self.new result (rule self.old.len kind) }
    {
        let name = self.name()?;
        self.tree.begin_rule(self.alloc, name)?;
        let action_type = match kind {
            YaccKind::Grmtools => Some(self.rule_type()?),
            _ => None,
        };
        let head = RuleHead { name, action_type };
        self.tree.name_rule(self.alloc, head)?;
        self.rule_body(head)
    }

    /// Whether a rule must be here: this is neither the text's end nor a second `%%`.
    fn is_rule_next(&self) -> bool
        ensures { result ≡ is_rule_next self.now.rest.now }
    {
        !self.rest.is_empty() && !self.holds("%%")
    }

    /// Passes rules up to a second `%%` or the end.
    fn rules(&mut self, kind: YaccKind) -> Result<(), ReadFault>
        ensures { Builds (λ x. x) self.old self.new result
            (repeat (while_test is_rule_next (rule self.old.len kind))) }
    {
        while self.is_rule_next() {
            self.rule(kind)?;
        }
        Ok(())
    }

    /// Passes the second `%%`, if it is here, and notes the programs after it.
    #[tactic(auto, unfolding(crate::specs::FileGrammar::programs))]
    fn programs(&mut self) -> Result<(), ReadFault>
        ensures { Builds (λ x. x) self.old self.new result (programs self.old.len) }
    {
        if self.accept("%%") {
            self.blank(true)?;
            self.tree.give_programs(self.alloc, self.rest)?;
        }
        Ok(())
    }

    /// Passes a whole file.
    #[tactic(auto, unfolding(crate::specs::FileGrammar::file))]
    pub(super) fn file(&mut self, kind: YaccKind) -> Result<(), ReadFault>
        ensures { Builds (λ x. x) self.old self.new result (file kind self.old.len) }
    {
        self.blank(true)?;
        self.declarations(kind)?;
        self.separator()?;
        self.blank(true)?;
        self.rules(kind)?;
        self.programs()
    }
}
