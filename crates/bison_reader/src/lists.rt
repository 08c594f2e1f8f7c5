//! Lists of symbols.

ghost use Rattle.std.specs.Prelude.{◌≡◌, ◌<◌, length, Ok};
ghost use Rattle.constructs.specs.Construct.{choice, emits};
ghost use Rattle.bison_reader.specs.Declarations.{expected_of, group_of, is_literal, is_string, listed, listed_turn};
ghost use Rattle.bison_reader.specs.Declarations.{precedence_rest, refused, rule_rest, symbol_rest, tagged_list};
ghost use Rattle.bison_reader.specs.Declarations.{token_rest};
ghost use Rattle.bison_reader.specs.Here.{sort_of};
ghost use Rattle.bison_reader.specs.Items.{RefusedForRules, RuleGiven};

use crate::group::Group;
use crate::item::{Associativity, Expected, Item};
use crate::reader::{Reader, Stop};
use crate::sort::Sort;
use crate::turns::Turns;
use std::alloc::AllocError;

/// What a list of symbols, with tags between them, declares.
#[derive(Clone, Copy)]
pub(crate) enum Listed {
    /// `%token`.
    Tokens,
    /// `%nterm`.
    Rules,
    /// `%type`.
    Symbols,
    /// `%left` and the like.
    Precedences(Associativity),
}

impl Listed {
    /// What such a list has.
    fn group(self) -> Group
        ensures { result ≡ group_of self }
    {
        match self {
            Listed::Tokens | Listed::Rules => Group::TokenName,
            Listed::Symbols | Listed::Precedences(_) => Group::Symbol,
        }
    }

    /// What is missing where it has nothing.
    fn expected(self) -> Expected
        ensures { result ≡ expected_of self }
    {
        match self {
            Listed::Tokens => Expected::TokenName,
            Listed::Rules => Expected::Identifier,
            Listed::Symbols | Listed::Precedences(_) => Expected::Symbol,
        }
    }
}

// Each turn passes another symbol, with or without a tag before it.
impl Turns for Listed {
    ghost construct = { λ list words. listed_turn words list };

    #[tactic(auto, unfolding(crate::specs::Declarations::listed_turn))]
    fn turn(&self, reader: &mut Reader<'_>) -> Result<bool, Stop> {
        if let Some(symbol) = reader.take(self.group()) {
            reader.symbol_rest(*self, symbol)?;
            return Ok(true);
        }
        if reader.take(Group::Tag).is_some() {
            reader.listed(*self)?;
            return Ok(true);
        }
        Ok(false)
    }
}

impl Reader<'_> {
    ghost use Rattle.bison_reader.specs.Inner.Builds.{Builds};

    /// Passes what may follow the name of a token: its number, and another name of it.
    #[tactic(auto, unfolding(crate::specs::Declarations::token_rest))]
    fn token_rest(&mut self, token: usize) -> Result<(), Stop>
        ensures { Builds (λ x. x) self.old self.new result (token_rest self.old.sorts.now token) }
    {
        self.note(Item::Token(token))?;
        self.optional(Group::Number);
        match self.take(Group::AnyString) {
            Some(string) => self.note(Item::Alias { token, string }),
            None => Ok(()),
        }
    }

    /// Passes what no rule has, if it is here.
    #[tactic(auto, unfolding(crate::specs::Declarations::refused))]
    fn refused(&mut self, group: Group) -> Result<(), Stop>
        ensures { Builds (λ x. x) self.old self.new result (refused self.old.sorts.now group) }
    {
        match self.take(group) {
            Some(word) => self.note(Item::NotForRules(word)),
            None => Ok(()),
        }
    }

    /// Notes that a name in `%nterm` is a rule, unless it is a literal.
    fn note_rule(&mut self, name: usize) -> Result<(), Stop>
        ensures { Builds (λ x. x) self.old self.new result
            (choice (λ _. is_literal self.old.sorts.now (sort_of self.old.sorts.now name))
            (emits (RefusedForRules name)) (emits (RuleGiven name))) }
    {
        match self.sort_of(name) {
            Sort::Literal => self.note(Item::NotForRules(name)),
            _ => self.note(Item::Rule(name)),
        }
    }

    /// Passes what follows a name in `%nterm`.
    #[tactic(auto, unfolding(crate::specs::Declarations::rule_rest))]
    fn rule_rest(&mut self, name: usize) -> Result<(), Stop>
        ensures { Builds (λ x. x) self.old self.new result (rule_rest self.old.sorts.now name) }
    {
        self.note_rule(name)?;
        self.refused(Group::Number)?;
        self.refused(Group::AnyString)
    }

    /// Passes the number that may follow a token of a level, unless it is named by a string.
    #[tactic(auto, unfolding(crate::specs::Declarations::precedence_rest))]
    fn precedence_rest(&mut self, associativity: Associativity, token: usize) -> Result<(), Stop>
        ensures { Builds (λ x. x) self.old self.new result
            (precedence_rest self.old.sorts.now associativity token) }
    {
        self.note(Item::Precedence(associativity, token))?;
        match self.sort_of(token) {
            Sort::String => {}
            _ => self.optional(Group::Number),
        }
        Ok(())
    }

    /// Passes what follows a symbol of the list.
    fn symbol_rest(&mut self, list: Listed, symbol: usize) -> Result<(), Stop>
        ensures { Builds (λ x. x) self.old self.new result (symbol_rest self.old.sorts.now list symbol) }
    {
        match list {
            Listed::Tokens => self.token_rest(symbol),
            Listed::Rules => self.rule_rest(symbol),
            Listed::Symbols => self.note(Item::Symbol(symbol)),
            Listed::Precedences(associativity) => self.precedence_rest(associativity, symbol),
        }
    }

    /// Passes a symbol, which must be here.
    #[tactic(auto, unfolding(crate::specs::Declarations::listed))]
    fn listed(&mut self, list: Listed) -> Result<(), Stop>
        ensures { Builds (λ x. x) self.old self.new result (listed self.old.sorts.now list) }
    {
        let symbol = self.needed(list.group(), list.expected())?;
        self.symbol_rest(list, symbol)
    }

    /// Passes a list of symbols, with tags between them.
    #[tactic(auto, unfolding(crate::specs::Declarations::tagged_list))]
    pub(super) fn tagged_list(&mut self, list: Listed) -> Result<(), Stop>
        ensures { Builds (λ x. x) self.old self.new result (tagged_list self.old.sorts.now list) }
    {
        self.optional(Group::Tag);
        self.listed(list)?;
        self.repeated(&list)
    }
}
