//! FOLLOW sets that grow: what a production adds to the sets of the rules in it.

ghost use Rattle.std.specs.Prelude.{◌≡◌, ◌-◌, ◌^◌, ◌<◌, ◌≤◌, ◌↔◌, ℕ, [], ◌∷◌};
ghost use Rattle.std.specs.Prelude.{Contains, length, IfOk, MatchBool, ⊤};
ghost use Rattle.derivation.specs.Grammar.{Grammar, IsGrammar, IsSymbolOf, Rule};
ghost use Rattle.cfgtables.specs.NumberedSymbols.{sym_of};
ghost use Rattle.cfgsets.specs.GrowingFollows.{AreSoundFollows, CoverFollowsOf, HasNoMoreFollows, IsOwner};
ghost use Rattle.cfgsets.specs.GrowingFollows.{count_follows};
ghost use Rattle.cfgsets.specs.Inner.Lookaheads.{BeginsList, FitFollows, Gathers, IsGathered, IsLookaheadOf};
ghost use Rattle.cfgsets.specs.Inner.Lookaheads.{LookaheadBefore, LookaheadHas, Puts, PutsAfter};
ghost use Rattle.cfgsets.specs.Growth.{CanAddProduction, AddsProduction, shown};
ghost use Rattle.cfgsets.specs.Table.{HasBit, no_bits, with_bit};
ghost use Rattle.cfgsets.specs.Waiting.{NoneWaits, Waits};

use crate::first_rows::FirstRows;
use crate::waiting::Waiting;
use crate::words::WordTable;
use cfgindex::{RIdx, Storage, Symbol, Vob};
use std::alloc::{AllocError, Global};
use std::marker::Model;

/// The next tokens at a position of a production.
#[derive(Drop)]
enum Lookahead<S: Storage> {
    /// At the end of the production: what follows the production's rule.
    End,
    /// Before a symbol that isn't nullable: what it begins with.
    Symbol(Symbol<S>),
    /// Before a nullable symbol: what was gathered in a list of bits.
    Gathered,
}

/// FOLLOW sets while they are computed, with the FIRST sets that they depend on.
#[derive(Drop)]
struct GrowingFollows<'a, S: Storage> {
    firsts: FirstRows<'a, S>,
    follows: WordTable,
    /// A rule whose set has all of that of another, so that this one need not be added again. Productions of a rule
    /// that end with the same rule follow each other.
    includes: Option<(usize, usize)>,
}

impl<'a, S: Storage> Model for GrowingFollows<'a, S> {
    ghost use Rattle.cfgsets.specs.GrowingFollows.{FollowSets};
    ghost use Rattle.cfgsets.specs.Inner.Lookaheads.{Includes};

    ghost Value = { FollowSets };

    ghost view = { λ x. record { firsts = x.firsts; follows = x.follows } };

    ghost invariant = { λ x. Includes x.follows x.includes };
}

impl<'a, S: Storage> GrowingFollows<'a, S> {
    /// Adds FIRST of the symbol to FOLLOW of the rule before it. Returns whether the set grew.
    fn put_first(&mut self, before: RIdx<S>, symbol: Symbol<S>) -> bool
        requires { (g : Grammar) × FitFollows g self.old × (S.number before.0 < g.rules)
            × IsSymbolOf g (sym_of S.number symbol) }
        ensures { Puts (λ r t. (r ≡ S.number before.0) × BeginsList self.old (sym_of S.number symbol ∷ []) t)
            self.old self.new result }
    {
        self.includes = None;
        match symbol {
            Symbol::Token(token) => self.follows.set(usize::from(before), usize::from(token)),
            Symbol::Rule(rule) => self
                .follows
                .join(usize::from(before), self.firsts.firsts(rule)),
        }
    }

    /// Adds FOLLOW of `rule` to FOLLOW of `before`. Returns whether the set grew.
    fn put_follows(&mut self, before: RIdx<S>, rule: RIdx<S>) -> bool
        requires { (g : Grammar) × FitFollows g self.old × (S.number before.0 < g.rules)
            × (S.number rule.0 < g.rules) }
        ensures { Puts (λ r t. (r ≡ S.number before.0) × HasBit self.old.follows (S.number rule.0) t)
            self.old self.new result }
    {
        let (into, from) = (usize::from(before), usize::from(rule));
        if self.is_included(into, from) {
            return false;
        }
        self.includes = Some((into, from));
        self.follows.join_row(into, from)
    }

    /// Whether it is known that the first rule's set has all of the second's.
    fn is_included(&self, into: usize, from: usize) -> bool
        ensures { MatchBool result
            ((t : ℕ) → HasBit self.now.follows from t → HasBit self.now.follows into t) ⊤ }
    {
        match self.includes {
            Some((has_all, of)) => has_all == into && of == from,
            None => false,
        }
    }

    /// Adds the next tokens to FOLLOW of `before`, the rule before them. Returns whether the set grew.
    fn put_lookahead(
        &mut self,
        rule: RIdx<S>,
        before: RIdx<S>,
        lookahead: &Lookahead<S>,
        gathered: &Vob,
    ) -> bool
        requires { (g : Grammar) × FitFollows g self.old × (S.number rule.0 < g.rules)
            × (S.number before.0 < g.rules)
            × IsLookaheadOf S.number g lookahead.now × (length gathered.now ≡ g.tokens) }
        ensures { Puts (λ r t. (r ≡ S.number before.0)
            × LookaheadHas S.number self.old (S.number rule.0) gathered.now lookahead.now t)
            self.old self.new result }
    {
        match lookahead {
            Lookahead::End => self.put_follows(before, rule),
            Lookahead::Symbol(symbol) => self.put_first(before, *symbol),
            Lookahead::Gathered => {
                self.includes = None;
                self.follows.join(usize::from(before), gathered)
            }
        }
    }

    /// If the symbol is a rule, adds the next tokens after it to its FOLLOW set, and queues it if the set grew.
    fn put_after(
        &mut self,
        rule: RIdx<S>,
        symbol: Symbol<S>,
        lookahead: &Lookahead<S>,
        gathered: &Vob,
        grown: &mut Waiting,
    )
        requires { (g : Grammar) × FitFollows g self.old × (length grown.old ≡ g.rules)
            × (S.number rule.0 < g.rules)
            × IsSymbolOf g (sym_of S.number symbol)
            × IsLookaheadOf S.number g lookahead.now × (length gathered.now ≡ g.tokens) }
        ensures { PutsAfter (λ r t. (Rule r ≡ sym_of S.number symbol)
            × LookaheadHas S.number self.old (S.number rule.0) gathered.now lookahead.now t)
            self.old self.new grown.old grown.new }
    {
        match symbol {
            Symbol::Rule(before) => {
                if self.put_lookahead(rule, before, lookahead, gathered) {
                    grown.put(usize::from(before));
                }
            }
            Symbol::Token(_) => {}
        }
    }

    /// Adds FIRST of the symbol to the gathered tokens.
    fn gather_first(&self, symbol: Symbol<S>, gathered: &mut Vob)
        requires { (g : Grammar) × FitFollows g self.now × (length gathered.old ≡ g.tokens)
            × IsSymbolOf g (sym_of S.number symbol) }
        ensures { Gathers (BeginsList self.now (sym_of S.number symbol ∷ [])) gathered.old gathered.new }
    {
        match symbol {
            Symbol::Token(token) => gathered.set(usize::from(token), true),
            Symbol::Rule(rule) => gathered.or(self.firsts.firsts(rule)),
        };
    }

    /// Replaces the gathered tokens by the next tokens.
    fn gather_lookahead(&self, rule: RIdx<S>, lookahead: &Lookahead<S>, gathered: &mut Vob)
        requires { (g : Grammar) × FitFollows g self.now × (S.number rule.0 < g.rules)
            × IsLookaheadOf S.number g lookahead.now × (length gathered.old ≡ g.tokens) }
        ensures length { length gathered.new ≡ length gathered.old }
        ensures tokens { (t : ℕ) → (IsGathered gathered.new t
            ↔ LookaheadHas S.number self.now (S.number rule.0) gathered.old lookahead.now t) }
    {
        match lookahead {
            Lookahead::End => {
                gathered.set_all(false);
                gathered.or_words(self.follows.row(usize::from(rule)));
            }
            Lookahead::Symbol(symbol) => {
                gathered.set_all(false);
                self.gather_first(*symbol, gathered);
            }
            Lookahead::Gathered => {}
        }
    }

    /// The next tokens before the symbol, given those after it. They are gathered only if the symbol is nullable.
    fn lookahead_before(
        &self,
        rule: RIdx<S>,
        symbol: Symbol<S>,
        lookahead: &Lookahead<S>,
        gathered: &mut Vob,
    ) -> Lookahead<S>
        requires { (g : Grammar) × FitFollows g self.now × (S.number rule.0 < g.rules)
            × IsSymbolOf g (sym_of S.number symbol)
            × IsLookaheadOf S.number g lookahead.now × (length gathered.old ≡ g.tokens) }
        ensures { LookaheadBefore S.number self.now (S.number rule.0) (sym_of S.number symbol)
            lookahead.now gathered.old result gathered.new }
    {
        if !self.firsts.is_nullable_symbol(symbol) {
            return Lookahead::Symbol(symbol);
        }
        self.gather_lookahead(rule, lookahead, gathered);
        self.gather_first(symbol, gathered);
        Lookahead::Gathered
    }

    /// Propagates FOLLOW through a production from right to left, and queues the rules whose sets grew. Each symbol is
    /// visited once, however many of them are nullable.
    fn add_production(
        &mut self,
        rule: RIdx<S>,
        symbols: &[Symbol<S>],
        gathered: &mut Vob,
        grown: &mut Waiting,
    )
        requires { (g : Grammar) × IsGrammar g × AreSoundFollows g self.old × NoneWaits grown.old
            × (length grown.old ≡ g.rules)
            × (length gathered.old ≡ g.tokens)
            × Contains g.productions (shown S.number rule symbols.now) }
        ensures firsts { self.new.firsts ≡ self.old.firsts }
        ensures takes { AddsProduction AreSoundFollows CoverFollowsOf count_follows IsOwner HasNoMoreFollows
            (shown S.number rule symbols.now) self.old self.new (Waits grown.new) }
        ensures rules { length grown.new ≡ length grown.old }
        ensures columns { self.new.follows.columns ≡ self.old.follows.columns }
        ensures gathered { length gathered.new ≡ length gathered.old }
    {
        let mut lookahead = Lookahead::End;
        for index in (0..symbols.len()).rev() {
            let symbol = symbols[index];
            self.put_after(rule, symbol, &lookahead, gathered, grown);
            lookahead = self.lookahead_before(rule, symbol, &lookahead, gathered);
        }
    }
}

/// FOLLOW sets while they are computed, and the tokens that a visit gathers.
#[derive(Drop)]
pub struct Follows<'a, S: Storage> {
    sets: GrowingFollows<'a, S>,
    gathered: Vob,
}

impl<'a, S: Storage> Model for Follows<'a, S> {
    ghost use Rattle.std.specs.Prelude.{◌≡◌, length};
    ghost use Rattle.cfgsets.specs.GrowingFollows.{FollowSets};

    ghost Value = { FollowSets };

    ghost view = { λ x. x.sets };

    ghost invariant = { λ x. length x.gathered ≡ x.sets.follows.columns };
}

impl<'a, S: Storage> Follows<'a, S> {
    /// The initial sets: the end token follows the start rule, and all other sets are empty.
    ///
    /// # Errors
    ///
    /// Out of memory.
    pub fn new(
        alloc: Global,
        firsts: FirstRows<'a, S>,
        rules: usize,
        tokens: usize,
    ) -> Result<Self, AllocError>
        requires rules { (1 ≤ rules) × (rules < 2 ^ 32) }
        requires tokens { (1 ≤ tokens) × (tokens < 2 ^ 32) }
        ensures { IfOk result (λ x. x ≡ record {
          firsts = firsts.entry;
          follows = with_bit (no_bits rules tokens) 0 (tokens - 1);
        }) }
    {
        let mut follows = WordTable::new(alloc, rules, tokens)?;
        let _ = follows.set(0, tokens - 1);
        Ok(Follows {
            sets: GrowingFollows {
                firsts,
                follows,
                includes: None,
            },
            gathered: Vob::from_elem(alloc, false, tokens)?,
        })
    }

    /// Adds what a production gives, and queues the rules whose sets grew.
    pub fn add_production(&mut self, rule: RIdx<S>, symbols: &[Symbol<S>], grown: &mut Waiting)
        requires { CanAddProduction AreSoundFollows self.old grown.old (shown S.number rule symbols.now) }
        ensures firsts { self.new.firsts ≡ self.old.firsts }
        ensures takes { AddsProduction AreSoundFollows CoverFollowsOf count_follows IsOwner HasNoMoreFollows
            (shown S.number rule symbols.now) self.old self.new (Waits grown.new) }
        ensures rules { length grown.new ≡ length grown.old }
    {
        self.sets
            .add_production(rule, symbols, &mut self.gathered, grown);
    }

    /// The FOLLOW sets.
    pub fn into_table(self) -> WordTable
        ensures { result ≡ self.entry.follows }
    {
        self.sets.follows
    }
}
