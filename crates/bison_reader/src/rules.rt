//! Rules, and the declarations among them.

ghost use Rattle.std.specs.Prelude.{◌≡◌, Ok, OnOk, [], ◌∷◌, ◌++◌};
ghost use Rattle.constructs.specs.Construct.{many, recovers};
ghost use Rattle.bison_reader.specs.FileGrammar.{file, rules};
ghost use Rattle.bison_reader.specs.Here.{sort_of};
ghost use Rattle.bison_reader.specs.Rules.{modifier, modifier_with, part, production, rule};
ghost use Rattle.bison_reader.specs.Rules.{production_end, rule_declaration};
ghost use Rattle.bison_reader.specs.Rules.{rule_or_declaration, rules_rest, rule_turn, rules_turn};
ghost use Rattle.bison_reader.specs.Rules.{tagged_action, whole_production, with_name};
ghost use Rattle.bison_reader.specs.Inner.Parts.{named_part};

use crate::declarations::Declarations;
use crate::group::Group;
use crate::item::{Expected, Item, Part, PartKind, Production};
use crate::reader::{Reader, Stop};
use crate::sort::{Modifier, Sort};
use crate::turns::Turns;
use std::alloc::AllocError;

/// Adds a part to a list.
fn push(parts: &mut Vec<Part>, part: Part) -> Result<(), AllocError>
    ensures { OnOk result (parts.new.items ≡ parts.old.items ++ part ∷ []) }
{
    parts.push(part)?;
    Ok(())
}

/// The other productions of the rule with this name, and any `;`.
#[derive(Drop)]
struct OtherProductions {
    rule: usize,
}

impl Turns for OtherProductions {
    ghost construct = { λ turns words. rule_turn words turns.rule };

    #[tactic(auto, unfolding(crate::specs::Rules::rule_turn))]
    fn turn(&self, reader: &mut Reader<'_>) -> Result<bool, Stop> {
        if reader.take(Group::Bar).is_some() {
            reader.production(self.rule)?;
            return Ok(true);
        }
        Ok(reader.take(Group::Semicolon).is_some())
    }
}

/// Rules, and the declarations among them, each or what is left of it after a fault.
#[derive(Drop)]
struct RulesAndDeclarations;

impl Turns for RulesAndDeclarations {
    ghost construct = { λ turns words. rules_turn words };

    #[tactic(auto, unfolding(crate::specs::Rules::rules_turn))]
    fn turn(&self, reader: &mut Reader<'_>) -> Result<bool, Stop> {
        if reader.is_here(Group::RulesEnd) {
            return Ok(false);
        }
        reader.rule_read()?;
        Ok(true)
    }
}

impl Reader<'_> {
    ghost use Rattle.bison_reader.specs.Inner.Builds.{Builds};

    /// Passes the name in brackets after a word, if there is one, and returns the last of the two.
    #[tactic(auto, unfolding(crate::specs::Rules::with_name))]
    fn with_name(&mut self, word: usize) -> usize
        ensures { Builds (λ x. x) self.old self.new (Ok result) (with_name self.old.sorts.now word) }
    {
        match self.take(Group::Name) {
            Some(last) => last,
            None => word,
        }
    }

    /// Passes the name in brackets after a symbol or code, if there is one, and returns what part the two are.
    fn named_part(&mut self, kind: PartKind, word: usize) -> Part
        ensures { Builds (λ x. x) self.old self.new (Ok result)
            (named_part self.old.sorts.now kind word) }
    {
        let last = self.with_name(word);
        Part { kind, word, last }
    }

    /// Passes code after a tag.
    #[tactic(auto, unfolding(crate::specs::Rules::tagged_action, crate::specs::Rules::action_part))]
    fn tagged_action(&mut self) -> Result<Part, Stop>
        ensures { Builds (λ x. x) self.old self.new result (tagged_action self.old.sorts.now) }
    {
        let code = self.needed(Group::Code, Expected::Code)?;
        Ok(self.named_part(PartKind::Action, code))
    }

    /// Passes the word that has to follow a directive.
    #[tactic(auto, unfolding(crate::specs::Rules::modifier_with))]
    fn modifier_with(
        &mut self,
        kind: PartKind,
        word: usize,
        group: Group,
        expected: Expected,
    ) -> Result<Part, Stop>
        ensures { Builds (λ x. x) self.old self.new result
            (modifier_with self.old.sorts.now kind word group expected) }
    {
        let last = self.needed(group, expected)?;
        Ok(Part { kind, word, last })
    }

    /// Passes what follows a directive of a production.
    fn modifier(&mut self, word: usize) -> Result<Part, Stop>
        ensures { Builds (λ x. x) self.old self.new result
            (modifier self.old.sorts.now word (sort_of self.old.sorts.now word)) }
    {
        match self.sort_of(word) {
            Sort::Modifier(Modifier::Precedence) => {
                self.modifier_with(PartKind::Precedence, word, Group::Symbol, Expected::Symbol)
            }
            Sort::Modifier(Modifier::Empty) => Ok(Part {
                kind: PartKind::Empty,
                word,
                last: word,
            }),
            Sort::Modifier(Modifier::DynamicPrecedence) => {
                self.modifier_with(
                    PartKind::DynamicPrecedence,
                    word,
                    Group::Number,
                    Expected::Number,
                )
            }
            Sort::Modifier(Modifier::Merge) => {
                self.modifier_with(PartKind::Other, word, Group::Tag, Expected::Tag)
            }
            _ => self.modifier_with(PartKind::Other, word, Group::Number, Expected::Number),
        }
    }

    /// Passes a part of a production, if there is one here.
    #[tactic(auto, unfolding(crate::specs::Rules::part, crate::specs::Rules::symbol_part, crate::specs::Rules::action_part))]
    fn part(&mut self) -> Result<Option<Part>, Stop>
        ensures { Builds (λ x. x) self.old self.new result (part self.old.sorts.now) }
    {
        if let Some(symbol) = self.take(Group::Symbol) {
            return Ok(Some(self.named_part(PartKind::Symbol, symbol)));
        }
        if let Some(code) = self.take(Group::Code) {
            return Ok(Some(self.named_part(PartKind::Action, code)));
        }
        if let Some(word) = self.take(Group::Predicate) {
            return Ok(Some(Part {
                kind: PartKind::Predicate,
                word,
                last: word,
            }));
        }
        if self.take(Group::Tag).is_some() {
            return Ok(Some(self.tagged_action()?));
        }
        match self.take(Group::Modifier) {
            Some(word) => Ok(Some(self.modifier(word)?)),
            None => Ok(None),
        }
    }

    /// Passes the parts of a production.
    fn parts(&mut self) -> Result<Vec<Part>, Stop>
        ensures { Builds (λ x. x.items) self.old self.new result (many (part self.old.sorts.now)) }
    {
        let mut parts = Vec::new(self.alloc);
        while let Some(part) = self.part()? {
            push(&mut parts, part)?;
        }
        Ok(parts)
    }

    /// A production has to end here.
    #[tactic(auto, unfolding(crate::specs::Rules::production_end))]
    fn production_end(&mut self) -> Result<(), Stop>
        ensures { Builds (λ x. x) self.old self.new result (production_end self.old.sorts.now) }
    {
        if self.is_here(Group::ProductionEnd) {
            return Ok(());
        }
        self.note_unexpected(Expected::Part)?;
        Err(Stop::Unexpected)
    }

    /// Passes a production without faults.
    #[tactic(auto, unfolding(crate::specs::Rules::whole_production), using(crate::proofs::Rests::next_here))]
    fn whole_production(&mut self, rule: usize) -> Result<(), Stop>
        ensures { Builds (λ x. x) self.old self.new result (whole_production self.old.sorts.now rule) }
    {
        let start = self.next;
        let parts = self.parts()?;
        self.production_end()?;
        self.note(Item::Production(Production { rule, start, parts }))
    }

    /// Passes a production. One with a fault ends at the next `;` or `%%`, and doesn't count.
    #[tactic(auto, unfolding(crate::specs::Rules::production))]
    fn production(&mut self, rule: usize) -> Result<(), Stop>
        ensures { Builds (λ x. x) self.old self.new result (production self.old.sorts.now rule) }
    {
        let (sorts, start) = (self.sorts, self.next);
        match self.whole_production(rule) {
            Err(Stop::Unexpected) => {
                self.sorts = sorts;
                self.next = start;
                self.words_of(Group::InRule)
            }
            read => read,
        }
    }

    /// Passes what follows the name of a rule.
    #[tactic(auto, unfolding(crate::specs::Rules::rule))]
    fn rule(&mut self, name: usize) -> Result<(), Stop>
        ensures { Builds (λ x. x) self.old self.new result (rule self.old.sorts.now name) }
    {
        self.note(Item::Head(name))?;
        self.optional(Group::Name);
        self.needed(Group::Colon, Expected::Colon)?;
        self.production(name)?;
        self.repeated(&OtherProductions { rule: name })
    }

    /// Passes what follows the directive of a declaration among the rules.
    #[tactic(auto, unfolding(crate::specs::Rules::rule_declaration))]
    fn rule_declaration(&mut self, word: usize) -> Result<(), Stop>
        ensures { Builds (λ x. x) self.old self.new result (rule_declaration self.old.sorts.now word) }
    {
        self.declared_by(word)?;
        self.only(Group::Semicolon, Expected::Semicolon)
    }

    #[tactic(auto, unfolding(crate::specs::Rules::rule_or_declaration))]
    fn rule_or_declaration(&mut self) -> Result<(), Stop>
        ensures { Builds (λ x. x) self.old self.new result (rule_or_declaration self.old.sorts.now) }
    {
        if let Some(name) = self.take(Group::Head) {
            return self.rule(name);
        }
        match self.take(Group::RuleDeclaration) {
            Some(word) => self.rule_declaration(word),
            None => {
                self.note_unexpected(Expected::Rule)?;
                Err(Stop::Unexpected)
            }
        }
    }

    /// Passes what isn't read after a fault.
    #[tactic(auto, unfolding(crate::specs::Rules::rules_rest))]
    fn rules_rest(&mut self) -> Result<(), Stop>
        ensures { Builds (λ x. x) self.old self.new result (rules_rest self.old.sorts.now) }
    {
        let word = self.needed(Group::Any, Expected::Rule)?;
        if !self.is_of(Group::Semicolon, word) {
            self.words_of(Group::InRule)?;
        }
        self.words_of(Group::Semicolon)
    }

    /// Passes a rule or a declaration, or what is left of one after a fault.
    fn rule_read(&mut self) -> Result<(), Stop>
        ensures { Builds (λ x. x) self.old self.new result
            (recovers (rule_or_declaration self.old.sorts.now) (λ fault. rules_rest self.old.sorts.now)) }
    {
        let (sorts, start) = (self.sorts, self.next);
        match self.rule_or_declaration() {
            Err(Stop::Unexpected) => {
                self.sorts = sorts;
                self.next = start;
                self.rules_rest()
            }
            read => read,
        }
    }

    /// Passes what follows the first `%%`: at least one rule.
    #[tactic(auto, unfolding(crate::specs::FileGrammar::rules), using(crate::proofs::Rests::next_here))]
    fn rules(&mut self) -> Result<(), Stop>
        ensures { Builds (λ x. x) self.old self.new result (rules self.old.sorts.now) }
    {
        if self.is_here(Group::RulesEnd) {
            self.note(Item::Unexpected(self.next, Expected::Rule))?;
        }
        self.repeated(&RulesAndDeclarations)
    }

    /// Passes a whole file.
    #[tactic(auto, unfolding(crate::specs::FileGrammar::file))]
    pub(super) fn file(&mut self) -> Result<(), Stop>
        ensures { Builds (λ x. x) self.old self.new result (file self.old.sorts.now) }
    {
        self.repeated(&Declarations)?;
        match self.take(Group::Mark) {
            Some(_) => self.rules(),
            None => Ok(()),
        }
    }
}
