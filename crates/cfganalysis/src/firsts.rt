//! FIRST: the tokens that rules begin with, and the rules that are nullable (Aho, Lam, Sethi and Ullman, 4.4.2).

ghost use Rattle.std.specs.Prelude.{◌≡◌, ◌<◌, ◌^◌, ◌↔◌, ℕ, [], ◌∷◌, All, Contains, false};
ghost use Rattle.std.specs.Prelude.{true, length, map, IfOk, IsTrue, MatchBool};
ghost use Rattle.derivation.specs.Grammar.{Grammar, IsGrammar, IsSymbolOf, Rule};
ghost use Rattle.cfganalysis.specs.Firsts.{AreFirsts, with_first};
ghost use Rattle.cfgsets.specs.FirstSets.{FitsGrammar, IsAmongFirsts, IsNullableRule, nullable_bit, BeginsBy};
ghost use Rattle.cfganalysis.specs.Inner.GrowingFirsts.{HasNoMoreFirsts, CoverFirstsOf, ProductionRefers};
ghost use Rattle.cfgsets.specs.FirstSets.{AreSoundFirsts, count_firsts, is_nullable_symbol};
ghost use Rattle.cfganalysis.specs.Inner.GrowingFirsts.{no_firsts, with_nullable};
ghost use Rattle.cfgtables.specs.Openings.{AreOpenedAtMost, most_openings};
ghost use Rattle.cfgsets.specs.Growth.{CanNote, CanAddProduction, AddsProduction, shown};
ghost use Rattle.cfgtables.specs.NumberedSymbols.{sym_of};
ghost use Rattle.cfgsets.specs.Table.{Joins, row_of};
ghost use Rattle.cfgsets.specs.Bounds.{firsts_bounded};
ghost use Rattle.cfgsets.specs.Waiting.{Waits};
ghost use Rattle.cfgsets.specs.Work.{Notes};

use crate::bits::BitTable;
use crate::visits::visit_all;
use cfgindex::{RIdx, Storage, Symbol, TIdx, Vob};
use cfgsets::{Analysis, Dependents, FirstRows, Waiting, WordTable};
use cfgtables::{CountedTables, Productions, Tables};
use std::alloc::{AllocError, Global};
use std::marker::{Model, PhantomData};

/// For each rule, the tokens that begin a list of symbols that it derives, and whether it derives the empty list.
#[derive(Debug, Drop)]
pub struct YaccFirsts<S: Storage> {
    firsts: BitTable,
    nullable: Vob,
    storage: PhantomData<S>,
}

impl<S: Storage> Model for YaccFirsts<S> {
    ghost use Rattle.cfgsets.specs.FirstSets.{FirstSets};

    ghost Value = { FirstSets };

    ghost view = { λ x. record { firsts = x.firsts; nullable = x.nullable } };
}

impl<S: Storage> YaccFirsts<S> {
    /// The FIRST sets of a grammar.
    ///
    /// # Errors
    ///
    /// Out of memory.
    pub fn new<T: Tables<S>>(alloc: Global, tables: &T) -> Result<Self, AllocError>
        ensures { IfOk result (AreFirsts (T.grammar tables.now)) }
    {
        let mut productions = CountedTables::new(alloc, tables)?;
        firsts_over(alloc, &mut productions)
    }

    /// The tokens that the rule begins with, as a bit for each token.
    pub fn firsts(&self, rule: RIdx<S>) -> &Vob
        requires { S.number rule.0 < length self.now.firsts.rows }
        ensures { result.now ≡ row_of self.now.firsts (S.number rule.0) }
    {
        self.firsts.row(usize::from(rule))
    }

    /// Whether the rule begins with the token.
    pub fn is_set(&self, rule: RIdx<S>, token: TIdx<S>) -> bool
        ensures { IsTrue result ↔ IsAmongFirsts self.now (S.number rule.0) (S.number token.0) }
    {
        self.firsts.is_set(usize::from(rule), usize::from(token))
    }

    /// Whether the rule is nullable.
    pub fn is_epsilon_set(&self, rule: RIdx<S>) -> bool
        ensures { IsTrue result ↔ IsNullableRule self.now (S.number rule.0) }
    {
        self.is_empty(usize::from(rule))
    }

    /// Adds the token to the rule's set. Returns whether it was in the set already.
    pub fn set(&mut self, rule: RIdx<S>, token: TIdx<S>) -> bool
        requires rule { S.number rule.0 < length self.old.firsts.rows }
        requires token { S.number token.0 < self.old.firsts.columns }
        ensures bits { self.new ≡ with_first self.old (S.number rule.0) (S.number token.0) }
        ensures was { IsTrue result ↔ IsAmongFirsts self.old (S.number rule.0) (S.number token.0) }
    {
        !self.firsts.set(usize::from(rule), usize::from(token))
    }

    /// Whether the rule with this number is nullable.
    fn is_empty(&self, rule: usize) -> bool
        ensures { result ≡ nullable_bit self.now rule }
    {
        self.nullable.get(rule).unwrap_or(false)
    }

    /// The sets, as FOLLOW reads them.
    pub(crate) fn rows(&self) -> FirstRows<'_, S>
        ensures { result ≡ self.now }
    {
        FirstRows::new(self.firsts.columns(), self.firsts.rows(), &self.nullable)
    }
}

/// Notes that a production depends on the symbol, if that is a rule.
fn note_symbol<S: Storage>(
    production: usize,
    symbol: Symbol<S>,
    dependents: &mut Dependents,
) -> Result<(), AllocError>
    requires { (g : Grammar) × (length dependents.old ≡ g.rules) × IsSymbolOf g (sym_of S.number symbol) }
    ensures { IfOk result (λ _. Notes production (λ r. Rule r ≡ sym_of S.number symbol) dependents.old dependents.new) }
{
    match symbol {
        Symbol::Rule(rule) => dependents.note(usize::from(rule), production),
        Symbol::Token(_) => Ok(()),
    }
}

/// Notes that a production depends on the rules among its symbols.
///
/// # Errors
///
/// Out of memory.
pub(crate) fn note_rules<S: Storage>(
    production: usize,
    symbols: &[Symbol<S>],
    dependents: &mut Dependents,
) -> Result<(), AllocError>
    requires { (g : Grammar) × (length dependents.old ≡ g.rules)
        × All (IsSymbolOf g) (map (sym_of S.number) symbols.now) }
    ensures { IfOk result (λ _. Notes production
        (λ r. Contains (map (sym_of S.number) symbols.now) (Rule r)) dependents.old dependents.new) }
{
    for held in symbols {
        note_symbol(production, *held, dependents)?;
    }
    Ok(())
}

/// FIRST sets that grow.
#[derive(Drop)]
struct GrowingFirsts<S: Storage> {
    firsts: WordTable,
    nullable: Vob,
    storage: PhantomData<S>,
}

impl<S: Storage> Model for GrowingFirsts<S> {
    ghost use Rattle.cfgsets.specs.FirstSets.{FirstSets};

    ghost Value = { FirstSets };

    ghost view = { λ x. record { firsts = x.firsts; nullable = x.nullable } };
}

impl<S: Storage> GrowingFirsts<S> {
    /// Empty sets.
    fn new(alloc: Global, rules: usize, tokens: usize) -> Result<Self, AllocError>
        requires rules { rules < 2 ^ 32 }
        requires tokens { tokens < 2 ^ 32 }
        ensures { IfOk result (λ x. x ≡ no_firsts rules tokens) }
    {
        Ok(GrowingFirsts {
            firsts: WordTable::new(alloc, rules, tokens)?,
            nullable: Vob::from_elem(alloc, false, rules)?,
            storage: PhantomData,
        })
    }

    /// The finished sets, with a list of bits for each rule.
    fn into_sets(self, alloc: Global) -> Result<YaccFirsts<S>, AllocError>
        ensures { IfOk result (λ x. x ≡ self) }
    {
        Ok(YaccFirsts {
            firsts: BitTable::from_words(alloc, &self.firsts)?,
            nullable: self.nullable,
            storage: PhantomData,
        })
    }

    /// Whether the symbol is a nullable rule.
    fn is_nullable_symbol(&self, symbol: Symbol<S>) -> bool
        ensures { result ≡ is_nullable_symbol self.now (sym_of S.number symbol) }
    {
        match symbol {
            Symbol::Rule(rule) => self.nullable.get(usize::from(rule)).unwrap_or(false),
            Symbol::Token(_) => false,
        }
    }

    /// Adds the tokens that the symbol begins with to the rule's set. Returns whether the set grew.
    fn put_first(&mut self, rule: RIdx<S>, symbol: Symbol<S>) -> bool
        requires { (g : Grammar) × FitsGrammar g self.old × (S.number rule.0 < g.rules)
            × IsSymbolOf g (sym_of S.number symbol) }
        ensures nullable { self.new.nullable ≡ self.old.nullable }
        ensures joins { Joins (λ r t. (r ≡ S.number rule.0) × BeginsBy self.old (sym_of S.number symbol ∷ []) t)
            self.old.firsts self.new.firsts result }
    {
        match symbol {
            Symbol::Token(token) => self.firsts.set(usize::from(rule), usize::from(token)),
            Symbol::Rule(next) => self.firsts.join_row(usize::from(rule), usize::from(next)),
        }
    }

    /// Marks the rule as nullable. Returns whether it wasn't marked before.
    fn put_epsilon(&mut self, rule: RIdx<S>) -> bool
        requires { S.number rule.0 < length self.old.nullable }
        ensures bits { self.new ≡ with_nullable self.old (S.number rule.0) }
        ensures was { MatchBool result (nullable_bit self.old (S.number rule.0) ≡ false)
            (nullable_bit self.old (S.number rule.0) ≡ true) }
    {
        self.nullable.set(usize::from(rule), true)
    }

    /// Adds what a production gives. Returns whether the rule's set grew.
    fn add_production(&mut self, rule: RIdx<S>, symbols: &[Symbol<S>]) -> bool
        requires { (g : Grammar) × IsGrammar g × AreSoundFirsts g self.old
            × Contains g.productions (shown S.number rule symbols.now) }
        ensures { AddsProduction AreSoundFirsts CoverFirstsOf count_firsts ProductionRefers HasNoMoreFirsts
            (shown S.number rule symbols.now)
            self.old self.new (λ r. (r ≡ S.number rule.0) × IsTrue result) }
    {
        let mut changed = false;
        for symbol in symbols {
            changed |= self.put_first(rule, *symbol);
            if !self.is_nullable_symbol(*symbol) {
                return changed;
            }
        }
        changed | self.put_epsilon(rule)
    }
}

impl<S: Storage> Analysis<S> for GrowingFirsts<S> {
    ghost holds = { AreSoundFirsts };

    ghost covers = { CoverFirstsOf };

    ghost bits = { count_firsts };

    ghost depends_on = { ProductionRefers };

    ghost no_more = { HasNoMoreFirsts };

    ghost bounded = { firsts_bounded };

    fn note(
        &self,
        production: usize,
        _rule: RIdx<S>,
        symbols: &[Symbol<S>],
        dependents: &mut Dependents,
    ) -> Result<(), AllocError>
        requires { CanNote dependents.old (shown S.number _rule symbols.now) }
        ensures { IfOk result (λ _. Notes production (ProductionRefers (shown S.number _rule symbols.now))
            dependents.old dependents.new) }
    {
        note_rules(production, symbols, dependents)
    }

    fn visit(&mut self, rule: RIdx<S>, symbols: &[Symbol<S>], grown: &mut Waiting)
        requires { CanAddProduction AreSoundFirsts self.old grown.old (shown S.number rule symbols.now) }
        ensures takes { AddsProduction AreSoundFirsts CoverFirstsOf count_firsts ProductionRefers HasNoMoreFirsts
            (shown S.number rule symbols.now) self.old self.new (Waits grown.new) }
        ensures rules { length grown.new ≡ length grown.old }
    {
        if self.add_production(rule, symbols) {
            grown.put(usize::from(rule));
        }
    }
}

/// Grows the FIRST sets until no production has anything to add.
///
/// # Errors
///
/// Out of memory.
fn grow_all<S: Storage, P: Productions<S>>(
    alloc: Global,
    productions: &mut P,
) -> Result<GrowingFirsts<S>, AllocError>
    requires fresh { (q : ℕ) → q < length (P.content productions.old).productions
        → P.opened productions.old q ≡ 0 }
    requires all_fresh { P.opened_all productions.old ≡ 0 }
    ensures firsts { IfOk result (AreFirsts (P.content productions.old)) }
    ensures content { P.content productions.new ≡ P.content productions.old }
    ensures few { AreOpenedAtMost (most_openings (P.content productions.old)) (P.content productions.old)
        (P.opened productions.new) (P.opened_all productions.new) }
{
    let rules = productions.rules_len().0.to_usize();
    let tokens = productions.tokens_len().0.to_usize();
    let mut firsts = GrowingFirsts::new(alloc, rules, tokens)?;
    visit_all(alloc, productions, &mut firsts)?;
    Ok(firsts)
}

/// The FIRST sets of the productions.
///
/// # Errors
///
/// Out of memory.
pub fn firsts_over<S: Storage, P: Productions<S>>(
    alloc: Global,
    productions: &mut P,
) -> Result<YaccFirsts<S>, AllocError>
    requires fresh { (q : ℕ) → q < length (P.content productions.old).productions
        → P.opened productions.old q ≡ 0 }
    requires all_fresh { P.opened_all productions.old ≡ 0 }
    ensures firsts { IfOk result (AreFirsts (P.content productions.old)) }
    ensures content { P.content productions.new ≡ P.content productions.old }
    ensures few { AreOpenedAtMost (most_openings (P.content productions.old)) (P.content productions.old)
        (P.opened productions.new) (P.opened_all productions.new) }
{
    let firsts = grow_all(alloc, productions)?;
    firsts.into_sets(alloc)
}
