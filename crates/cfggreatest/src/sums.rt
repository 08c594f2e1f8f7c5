//! What the productions of a group of rules cost, without the rules of the group. In a group, each rule costs as much
//! as any other. So its greatest cost is the greatest of these sums, unless a rule of the group is beside something
//! that costs: then the costs grow.

ghost use Rattle.std.specs.Prelude.{◌≡◌, ℕ, ◌+◌, ◌<◌, [], ◌∷◌, All, Contains, IfErr, MatchResult, OnOk, false, length};
ghost use Rattle.std.specs.Prelude.{map, min, slice_index};
ghost use Rattle.derivation.specs.CostLists.{IsListed};
ghost use Rattle.derivation.specs.Grammar.{HasProduction, Rule};
ghost use Rattle.cfgtables.specs.NumberedSymbols.{sym_of};
ghost use Rattle.cfggreatest.specs.GreatestCosts.{Means};
ghost use Rattle.cfggreatest.specs.Inner.AtLeast.{HasWord};
ghost use Rattle.cfggreatest.specs.Inner.Known.{group_result, read_known, read_result, read_symbol};
ghost use Rattle.cfggreatest.specs.Inner.Sums.{AreNoLess, AreReached, AreUnbounded, AreUnder, GrowsSequence, HaveWords};
ghost use Rattle.cfggreatest.specs.Inner.Sums.{IsGroupOf, IsSum, StopsAt, TakesSequence, known_in};

use cfganalysis::are_productive;
use cfgindex::{RIdx, Storage, Symbol, Vob, to_storage};
use cfgtables::Tables;
use derivation::CostError;

/// The least cost that is too large.
const TOO_LARGE: u32 = 65536;

/// The costs of a group are unbounded.
#[derive(Drop)]
struct Grows;

/// What a list of symbols costs.
#[derive(Drop)]
struct SequenceSum {
    /// What the symbols outside the group cost, cut down.
    outer: u32,
    /// How many symbols are rules of the group.
    inner: usize,
}

/// What the productions of a group cost.
#[derive(Drop)]
struct Sums {
    /// The greatest sum outside the group, cut down.
    top: u32,
    /// Whether a production contains two rules of the group.
    twice: bool,
}

impl Sums {
    /// The sums of no production.
    fn new() -> Self
        ensures { result ≡ record { top = 0; twice = false } }
    {
        Sums {
            top: 0,
            twice: false,
        }
    }

    /// The result for each rule of the group.
    fn result(&self) -> Result<Option<u16>, CostError>
        ensures { result ≡ group_result self.now.top self.now.twice }
    {
        if self.twice && self.top > 0 {
            return Ok(None);
        }
        match u16::try_from(self.top) {
            Ok(cost) => Ok(Some(cost)),
            Err(_) => Err(CostError::CostTooLarge),
        }
    }
}

/// What a rule with this result adds to a sum, cut down.
fn result_cost(known: Result<Option<u16>, CostError>) -> Result<Option<u32>, Grows>
    ensures { result ≡ read_result known }
{
    match known {
        Ok(None) => Err(Grows),
        Ok(Some(cost)) => Ok(Some(u32::from(cost))),
        Err(_) => Ok(Some(TOO_LARGE)),
    }
}

/// The sum of two costs, cut down.
fn cut_sum(first: u32, second: u32) -> u32
    ensures { result ≡ min 65536 (first + second) }
{
    TOO_LARGE.min(first.saturating_add(second))
}

/// A group of rules, and what their sums depend on.
#[derive(Drop)]
pub(crate) struct Group<'a> {
    /// Which rules are productive, as a bit for each.
    pub(crate) productive: &'a Vob,
    /// What tokens cost.
    pub(crate) costs: &'a [u8],
    /// For each rule the number of its group. Rules lead to those of the same group, and of ones with lower numbers.
    pub(crate) numbers: &'a [usize],
    /// The number of this group.
    pub(crate) number: usize,
    /// The results of the rules in groups with lower numbers.
    pub(crate) results: &'a [Result<Option<u16>, CostError>],
}

impl<'a> Group<'a> {
    /// What a rule adds to a sum, unless it is in the group.
    fn rule_cost(&self, rule: usize) -> Result<Option<u32>, Grows>
        requires numbers { rule < length self.now.numbers.now }
        requires results { rule < length self.now.results.now }
        ensures { result ≡ read_known (known_in self.now rule) }
    {
        if self.numbers[rule] < self.number {
            result_cost(self.results[rule])
        } else {
            Ok(None)
        }
    }

    /// What a symbol adds to a sum, unless it is a rule of the group.
    fn symbol_cost<S: Storage>(&self, symbol: Symbol<S>) -> Result<Option<u32>, Grows>
        requires results { length self.now.results.now ≡ length self.now.numbers.now }
        requires symbol { IsListed (length self.now.numbers.now) (length self.now.costs.now) (sym_of S.number symbol) }
        ensures { result ≡ read_symbol (slice_index self.now.costs.now) (known_in self.now) (sym_of S.number symbol) }
    {
        match symbol {
            Symbol::Rule(rule) => self.rule_cost(usize::from(rule)),
            Symbol::Token(token) => Ok(Some(u32::from(self.costs[usize::from(token)]))),
        }
    }

    /// What the symbols cost in total, without the rules of the group.
    fn sequence_sum<S: Storage>(&self, symbols: &[Symbol<S>]) -> Result<SequenceSum, Grows>
        requires results { length self.now.results.now ≡ length self.now.numbers.now }
        requires symbols { All (IsListed (length self.now.numbers.now) (length self.now.costs.now))
            (map (sym_of S.number) symbols.now) }
        ensures { MatchResult result
            (λ sum. IsSum (slice_index self.now.costs.now) (known_in self.now) (map (sym_of S.number) symbols.now)
            sum.outer sum.inner)
            (λ _. StopsAt (slice_index self.now.costs.now) (known_in self.now) (map (sym_of S.number) symbols.now)) }
    {
        let mut outer: u32 = 0;
        let mut inner: usize = 0;
        for symbol in symbols {
            match self.symbol_cost(*symbol)? {
                Some(cost) => outer = cut_sum(outer, cost),
                None => inner += 1,
            }
        }
        Ok(SequenceSum { outer, inner })
    }

    /// Adds the sum of a production, if it has words.
    fn take_sequence<S: Storage>(&self, symbols: &[Symbol<S>], sums: &mut Sums) -> Result<(), Grows>
        requires results { length self.now.results.now ≡ length self.now.numbers.now }
        requires symbols { All (IsListed (length self.now.numbers.now) (length self.now.costs.now))
            (map (sym_of S.number) symbols.now) }
        ensures { MatchResult result
            (λ _. TakesSequence (slice_index self.now.costs.now) (known_in self.now) self.now.productive.now
            (map (sym_of S.number) symbols.now) sums.old sums.new)
            (λ _. GrowsSequence (slice_index self.now.costs.now) (known_in self.now) self.now.productive.now
            (map (sym_of S.number) symbols.now)) }
    {
        if !are_productive(self.productive, symbols) {
            return Ok(());
        }
        let sequence = self.sequence_sum(symbols)?;
        if sequence.inner > 0 && sequence.outer > 0 {
            return Err(Grows);
        }
        sums.top = sums.top.max(sequence.outer);
        sums.twice = sums.twice || sequence.inner > 1;
        Ok(())
    }

    /// Adds the sums of the productions of this rule, which is one of the group's.
    fn take_rule<S: Storage, T: Tables<S>>(
        &self,
        grm: &T,
        rules: &[usize],
        rule: usize,
        sums: &mut Sums,
    ) -> Result<(), Grows>
        requires group { IsGroupOf (T.grammar grm.now) self.now rules.now }
        requires words { HaveWords (HasProduction (T.grammar grm.now)) rules.now }
        requires among { Contains rules.now rule }
        requires within { rule < (T.grammar grm.now).rules }
        requires reached { AreReached (HasProduction (T.grammar grm.now)) (slice_index self.now.costs.now) rules.now
            sums.old }
        ensures reached { OnOk result (AreReached (HasProduction (T.grammar grm.now)) (slice_index self.now.costs.now)
            rules.now sums.new) }
        ensures under { OnOk result (AreUnder (HasProduction (T.grammar grm.now)) (slice_index self.now.costs.now)
            (known_in self.now) self.now.productive.now rule sums.new) }
        ensures more { OnOk result (AreNoLess sums.old sums.new) }
        ensures grows { IfErr result (λ _. AreUnbounded (HasProduction (T.grammar grm.now))
            (slice_index self.now.costs.now) rules.now) }
    {
        grm.invariant_holds();
        for p in grm.rule_to_prods(RIdx(to_storage(rule))) {
            self.take_sequence(grm.prod(*p), sums)?;
        }
        Ok(())
    }

    /// The sums of the productions of these rules, which are the group's.
    fn sums<S: Storage, T: Tables<S>>(&self, grm: &T, rules: &[usize]) -> Result<Sums, Grows>
        requires group { IsGroupOf (T.grammar grm.now) self.now rules.now }
        requires words { HaveWords (HasProduction (T.grammar grm.now)) rules.now }
        requires within { (r : ℕ) → Contains rules.now r → r < (T.grammar grm.now).rules }
        ensures { MatchResult result
            (λ sums. AreReached (HasProduction (T.grammar grm.now)) (slice_index self.now.costs.now) rules.now sums
            × ((r : ℕ) → Contains rules.now r → AreUnder (HasProduction (T.grammar grm.now))
            (slice_index self.now.costs.now) (known_in self.now) self.now.productive.now r sums))
            (λ _. AreUnbounded (HasProduction (T.grammar grm.now)) (slice_index self.now.costs.now) rules.now) }
    {
        let mut sums = Sums::new();
        for rule in rules {
            self.take_rule(grm, rules, *rule, &mut sums)?;
        }
        Ok(sums)
    }

    /// The result for each of these rules, which are the group's.
    pub(crate) fn result<S: Storage, T: Tables<S>>(
        &self,
        grm: &T,
        rules: &[usize],
    ) -> Result<Option<u16>, CostError>
        requires group { IsGroupOf (T.grammar grm.now) self.now rules.now }
        requires some { 0 < length rules.now }
        requires within { (r : ℕ) → Contains rules.now r → r < (T.grammar grm.now).rules }
        requires alike { (r x : ℕ) → Contains rules.now r → Contains rules.now x
            → HasWord (HasProduction (T.grammar grm.now)) (Rule r ∷ [])
            → HasWord (HasProduction (T.grammar grm.now)) (Rule x ∷ []) }
        ensures { (r : ℕ) → Contains rules.now r
            → Means (HasProduction (T.grammar grm.now)) (slice_index self.now.costs.now) r result }
    {
        let first = rules[0];
        if !self.productive.get(first).unwrap_or(false) {
            return Err(CostError::NoSentence);
        }
        match self.sums(grm, rules) {
            Ok(sums) => sums.result(),
            Err(Grows) => Ok(None),
        }
    }
}
