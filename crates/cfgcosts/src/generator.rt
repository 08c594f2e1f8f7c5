//! The costs of a grammar's sentences: the least cost of each rule, with the production that shows it, and the
//! greatest.

ghost use Rattle.std.specs.Prelude.{◌≡◌, ◌↔◌, ℕ, ◌<◌, ◌≤◌, ◌⊎◌, List, Option, All};
ghost use Rattle.std.specs.Prelude.{EachIndex, Err, IfOk, IfSome, None, Ok, Some, length, slice_index};
ghost use Rattle.std.specs.Result.{result_ok};
ghost use Rattle.cfgindex.specs.declared.idxnewtype.TIdx.{TIdx};
ghost use Rattle.derivation.specs.Grammar.{HasProduction, IsGrammar};
ghost use Rattle.derivation.specs.Costs.{Greatest, Least, Unbounded};
ghost use Rattle.derivation.specs.Cycles.{ReachesGrowingCycle};
ghost use Rattle.derivation.specs.CostLists.{rule_cost};
ghost use Rattle.derivation.specs.Productive.{Unproductive};
ghost use Rattle.cfgleast.specs.Certificate.{IsCovered, IsReached, choice_of, rule_choice};
ghost use Rattle.cfgleast.specs.Generator.{IsGenerator, IsLeastProduction, IsTooLarge};
ghost use Rattle.cfgleast.specs.Generator.{choice_answer, cost_answer, token_cost};

use crate::targets::last_targets;
use cfgchoices::first::first_choices;
use cfgchoices::kinds::{Kind, kinds};
use cfggreatest::greatest_costs;
use cfgindex::{PIdx, RIdx, Storage, TIdx, to_storage};
use cfgleast::settle::{Settled, settle};
use cfgleast::walk::TOO_LARGE;
use cfgtables::Tables;
use derivation::CostError;
use std::alloc::{AllocError, Global};
use std::marker::Model;

/// What each token costs.
fn token_costs<S: Storage, F: Fn(TIdx<S>) -> u8>(
    alloc: Global,
    tokens_len: usize,
    cost: F,
) -> Result<Vec<u8>, AllocError>
    requires callable { (t : TIdx S) → S.number t.0 < tokens_len → F.pre cost t }
    requires fits { tokens_len ≤ S.MAX }
    requires positive { (t : TIdx S) (c : ℕ) → S.number t.0 < tokens_len → F.post cost t c → 0 < c }
    ensures positive { IfOk result (λ costs. All (λ c. 0 < c) costs.items) }
    ensures len { IfOk result (λ costs. length costs.items ≡ tokens_len) }
    ensures costs { IfOk result (λ costs. (t : TIdx S) → S.number t.0 < tokens_len
        → F.post cost t (slice_index costs.items (S.number t.0))) }
{
    let mut costs = Vec::new(alloc);
    for number in 0..tokens_len {
        let token = TIdx(to_storage(number));
        costs.push(cost(token))?;
    }
    Ok(costs)
}

/// The least and the greatest costs of a grammar's rules.
#[derive(Drop)]
pub struct SentenceGenerator<'a, S: Storage, T: Tables<S>> {
    pub(crate) tables: &'a T,
    pub(crate) costs: Vec<u8>,
    pub(crate) settled: Settled<S>,
    pub(crate) kinds: Vec<Kind<S>>,
    /// For each rule that costs something, the production that makes its first minimal sentence.
    pub(crate) firsts: Vec<Option<(PIdx<S>, u32)>>,
    /// For each rule, a rule with the same minimal sentences: the last that chain productions lead to, as long as each
    /// is the only optimal production of its rule.
    pub(crate) last_targets: Vec<RIdx<S>>,
    greatest: Vec<Result<Option<u16>, CostError>>,
}

impl<'a, S: Storage, T: Tables<S>> Model for SentenceGenerator<'a, S, T> {
    ghost use Rattle.std.specs.Prelude.{slice_index};
    ghost use Rattle.cfggreatest.specs.GreatestCosts.{AreGreatestCosts};
    ghost use Rattle.cfgchoices.specs.FirstChoices.{AreFirst, AreChosen};
    ghost use Rattle.cfgleast.specs.Generator.{CostTables, IsGeneratorOf, settled_tables, tables_of};
    ghost use Rattle.cfgcosts.specs.Inner.Targets.{AreTargets, rules_of};
    ghost use Rattle.cfgchoices.specs.Kinds.{AreKinds};

    ghost Value = { CostTables };

    ghost view = { λ x. settled_tables S.number (T.grammar x.tables.now) x.costs.items x.settled };

    ghost invariant = { λ x. IsGeneratorOf S.number (T.grammar x.tables.now) x.costs.items x.settled
        × AreGreatestCosts (T.grammar x.tables.now) (slice_index x.costs.items) x.greatest.items
        × AreKinds S.number (settled_tables S.number (T.grammar x.tables.now) x.costs.items x.settled) x.kinds.items
        × AreChosen (tables_of S.number (T.grammar x.tables.now) x.costs.items x.settled.least.items x.firsts.items)
        × AreFirst (tables_of S.number (T.grammar x.tables.now) x.costs.items x.settled.least.items x.firsts.items)
        × AreTargets S.number (T.grammar x.tables.now) x.kinds.items (rules_of S.number x.last_targets.items) };
}

impl<'a, S: Storage, T: Tables<S>> SentenceGenerator<'a, S, T> {
    /// The costs of the rules, where `cost` gives the cost of each token. It is called once for each token, in order,
    /// and also for the end token.
    ///
    /// # Errors
    ///
    /// Out of memory.
    pub fn new<F: Fn(TIdx<S>) -> u8>(
        alloc: Global,
        tables: &'a T,
        cost: F,
    ) -> Result<Self, AllocError>
        requires callable { (t : TIdx S) → S.number t.0 < (T.grammar tables.now).tokens → F.pre cost t }
        requires positive { (t : TIdx S) (c : ℕ) → S.number t.0 < (T.grammar tables.now).tokens
            → F.post cost t c → 0 < c }
        ensures grammar { IfOk result (λ x. x.grammar ≡ T.grammar tables.now) }
        ensures tokens { IfOk result (λ x. length x.costs ≡ (T.grammar tables.now).tokens) }
        ensures positive { IfOk result (λ x. All (λ c. 0 < c) x.costs) }
        ensures costs { IfOk result (λ x. (t : TIdx S) → S.number t.0 < (T.grammar tables.now).tokens
            → F.post cost t (token_cost x (S.number t.0))) }
    {
        let tokens_len = tables.tokens_len().0.to_usize();
        let costs = token_costs(alloc, tokens_len, cost)?;
        let by_token = costs.as_slice();
        let settled = settle(alloc, tables, by_token)?;
        let kinds = kinds(alloc, tables, by_token, &settled)?;
        let by_production = kinds.as_slice();
        let firsts = first_choices(alloc, tables, by_token, &settled, by_production)?;
        let last_targets = last_targets(alloc, tables, by_production)?;
        let greatest = greatest_costs(alloc, tables, by_token)?;
        Ok(SentenceGenerator {
            tables,
            costs,
            settled,
            kinds,
            firsts,
            last_targets,
            greatest,
        })
    }

    /// A law, so the call does nothing: the tables are those of a generator, and the grammar's rules can be counted by
    /// `S`.
    pub(crate) fn invariant_holds(&self)
        ensures generator { (n : ℕ) × IsGenerator self.now n }
        ensures grammar { IsGrammar self.now.grammar }
        ensures rules { self.now.grammar.rules ≤ S.MAX }
    {
        self.tables.invariant_holds();
    }

    /// The number of rules, as of the grammar.
    pub fn rules_len(&self) -> RIdx<S>
        ensures { S.number result.0 ≡ self.now.grammar.rules }
    {
        self.tables.rules_len()
    }

    /// What each token costs, which is at least 1.
    pub fn token_costs(&self) -> &[u8]
        ensures costs { result.now ≡ self.now.costs }
        ensures tokens { length result.now ≡ self.now.grammar.tokens }
        ensures positive { All (λ c. 0 < c) result.now }
    {
        &self.costs
    }

    /// The least cost of the rule's sentences.
    ///
    /// # Errors
    ///
    /// `NoSentence` if the rule has no sentence; `CostTooLarge` if it has some, and each costs more than 65535.
    pub fn min_sentence_cost(&self, rule: RIdx<S>) -> Result<u16, CostError>
        requires { S.number rule.0 < self.now.grammar.rules }
        ensures least { IfOk result (Least (HasProduction self.now.grammar) (token_cost self.now) (S.number rule.0)) }
        ensures found { (c : ℕ) → Least (HasProduction self.now.grammar) (token_cost self.now) (S.number rule.0) c
            → c ≤ 65535 → result ≡ Ok c }
        ensures none { (result ≡ Err CostError.NoSentence)
            ↔ Unproductive (HasProduction self.now.grammar) (S.number rule.0) }
        ensures too_large { (result ≡ Err CostError.CostTooLarge)
            ↔ IsTooLarge (HasProduction self.now.grammar) (token_cost self.now) (S.number rule.0) }
        ensures answer { result_ok result ≡ cost_answer self.now (S.number rule.0) }
    {
        match self.settled.least[usize::from(rule)] {
            Some(cost) if cost < TOO_LARGE => Ok(cost as u16),
            Some(_) => Err(CostError::CostTooLarge),
            None => Err(CostError::NoSentence),
        }
    }

    /// The greatest cost of the rule's sentences. It is `None` if for every number some sentence costs more, that is,
    /// if the rule reaches a growing cycle: a rule x that derives u x v, where u and v derive tokens that cost
    /// something.
    ///
    /// # Errors
    ///
    /// `NoSentence` if the rule has no sentence; `CostTooLarge` if the greatest cost exists and is more than 65535.
    pub fn max_sentence_cost(&self, rule: RIdx<S>) -> Result<Option<u16>, CostError>
        requires { S.number rule.0 < self.now.grammar.rules }
        ensures none { (result ≡ Err CostError.NoSentence)
            ↔ Unproductive (HasProduction self.now.grammar) (S.number rule.0) }
        ensures unbounded { (result ≡ Ok None)
            ↔ Unbounded (HasProduction self.now.grammar) (token_cost self.now) (S.number rule.0) }
        ensures cycle { (result ≡ Ok None)
            ↔ ReachesGrowingCycle (HasProduction self.now.grammar) (token_cost self.now) (S.number rule.0) }
        ensures greatest { (c : ℕ) → (result ≡ Ok (Some c))
            ↔ (Greatest (HasProduction self.now.grammar) (token_cost self.now) (S.number rule.0) c × (c ≤ 65535)) }
        ensures too_large { (result ≡ Err CostError.CostTooLarge)
            ↔ ((n : ℕ) × Greatest (HasProduction self.now.grammar) (token_cost self.now) (S.number rule.0) n
            × (65535 < n)) }
    {
        self.greatest[usize::from(rule)]
    }

    /// A production of least cost, and a number, which is greater than those of all rules in the production. It is
    /// `None` exactly if [`min_sentence_cost`](SentenceGenerator::min_sentence_cost) returns an error.
    pub fn choice(&self, rule: RIdx<S>) -> Option<(PIdx<S>, u32)>
        requires { S.number rule.0 < self.now.grammar.rules }
        ensures production { IfSome result (λ choice.
            IsLeastProduction self.now.grammar (token_cost self.now) (S.number rule.0) (S.number choice.0.0)) }
        ensures none { (result ≡ None) ↔ (Unproductive (HasProduction self.now.grammar) (S.number rule.0)
            ⊎ IsTooLarge (HasProduction self.now.grammar) (token_cost self.now) (S.number rule.0)) }
        ensures answer { choice_of S.number result ≡ choice_answer self.now (S.number rule.0) }
    {
        match self.min_sentence_cost(rule) {
            Ok(_) => self.settled.choices[usize::from(rule)],
            Err(_) => None,
        }
    }

    /// The generator's results pass both checks.
    pub fn results_pass_both_checks(&self)
        ensures least { (least : List (Option ℕ)) → length least ≡ self.now.grammar.rules
            → ((r : ℕ) → r < self.now.grammar.rules → rule_cost least r ≡ cost_answer self.now r)
            → All (IsCovered self.now.costs least) self.now.grammar.productions }
        ensures reached { (least : List (Option ℕ)) (choices : List (Option (ℕ × ℕ)))
            → length least ≡ self.now.grammar.rules
            → ((r : ℕ) → r < self.now.grammar.rules → rule_cost least r ≡ cost_answer self.now r)
            → ((r : ℕ) → r < self.now.grammar.rules → rule_choice choices r ≡ choice_answer self.now r)
            → EachIndex least (IsReached self.now.grammar self.now.costs least choices) }
    {
        let _costs = &self.costs;
    }
}
