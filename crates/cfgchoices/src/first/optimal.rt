//! What is known of the optimal productions.

ghost use Rattle.std.specs.Prelude.{◌≡◌, ℕ, ◌+◌, ◌^◌, ◌<◌, All, Contains, IfOk, false, length, map, slice_index_or};
ghost use Rattle.std.specs.Prelude.{true};
ghost use Rattle.cfgtables.specs.Openings.{nth_production};
ghost use Rattle.cfgtables.specs.NumberedSymbols.{sym_of};
ghost use Rattle.cfgleast.specs.Generator.{IsGeneratorOf, settled_tables};
ghost use Rattle.cfgchoices.specs.Kinds.{AreKinds, IsChain, production_numbers};
ghost use Rattle.cfgchoices.specs.Inner.Lists.{IsFirstFrom, IsIn, IsBaseAt};
ghost use Rattle.cfgchoices.specs.Inner.Candidates.{HasList, IsOptimalByKind, IsKnown, is_sole, owner, sequence};
ghost use Rattle.cfgchoices.specs.declared.kinds.Kind.TheVariants.{Suboptimal};

use crate::first::lists::{Listed, Lists};
use crate::kinds::Kind;
use cfgindex::{PIdx, RIdx, Storage, Symbol, to_storage};
use cfgleast::settle::Settled;
use cfgtables::Tables;
use std::alloc::{AllocError, Global};
use std::marker::Model;

/// For each rule, whether at most one of its productions is optimal.
///
/// # Errors
///
/// Out of memory.
fn sole_rules<S: Storage, T: Tables<S>>(
    alloc: Global,
    tables: &T,
    kinds: &[Kind<S>],
) -> Result<Vec<bool>, AllocError>
    requires { length kinds.now ≡ length (T.grammar tables.now).productions }
    ensures flags { IfOk result (λ sole. length sole.items ≡ (T.grammar tables.now).rules) }
    ensures sole { IfOk result (λ sole. (r : ℕ) → slice_index_or sole.items r false ≡ true
        → (p q : ℕ) → IsOptimalByKind kinds.now p → IsOptimalByKind kinds.now q
        → (nth_production (T.grammar tables.now) p).rule ≡ r → (nth_production (T.grammar tables.now) q).rule ≡ r
        → p ≡ q) }
{
    tables.invariant_holds();
    let rules_len = usize::from(tables.rules_len());
    let mut sole = vec![in alloc; true; rules_len]?;
    let mut seen = vec![in alloc; false; rules_len]?;
    for number in 0..kinds.len() {
        if let Kind::Suboptimal = kinds[number] {
            continue;
        }
        let rule = usize::from(tables.prod_to_rule(PIdx(to_storage(number))));
        if seen[rule] {
            sole[rule] = false;
            continue;
        }
        seen[rule] = true;
    }
    Ok(sole)
}

/// The optimal productions, with what is known of them.
#[derive(Drop)]
pub(crate) struct OptimalTables<'a, S: Storage, T: Tables<S>> {
    tables: &'a T,
    pub(crate) costs: &'a [u8],
    settled: &'a Settled<S>,
    sole: Vec<bool>,
    lists: Lists<S>,
}

impl<'a, S: Storage, T: Tables<S>> Model for OptimalTables<'a, S, T> {
    ghost use Rattle.std.specs.Prelude.{length};
    ghost use Rattle.cfgleast.specs.Generator.{settled_tables};
    ghost use Rattle.cfgchoices.specs.Inner.Lists.{AreLists};
    ghost use Rattle.cfgchoices.specs.Inner.Candidates.{IsKnown, Known};

    ghost Value = { Known };

    ghost view = { λ x. record {
      tables = settled_tables S.number (T.grammar x.tables.now) x.costs.now x.settled.now;
      sole = x.sole.items;
      limit = length x.lists.base.items;
    } };

    ghost invariant = { λ x. IsKnown (record {
      tables = settled_tables S.number (T.grammar x.tables.now) x.costs.now x.settled.now;
      sole = x.sole.items;
      limit = length x.lists.base.items;
    })
        x.settled.now.number
        × AreLists S.number (settled_tables S.number (T.grammar x.tables.now) x.costs.now x.settled.now) 0 x.lists };
}

impl<'a, S: Storage, T: Tables<S>> OptimalTables<'a, S, T> {
    /// What is known of the productions.
    ///
    /// # Errors
    ///
    /// Out of memory.
    pub(crate) fn new(
        alloc: Global,
        tables: &'a T,
        costs: &'a [u8],
        settled: &'a Settled<S>,
        kinds: &'a [Kind<S>],
    ) -> Result<Self, AllocError>
        requires generator { IsGeneratorOf S.number (T.grammar tables.now) costs.now settled.now }
        requires kinds { AreKinds S.number (settled_tables S.number (T.grammar tables.now) costs.now settled.now)
            kinds.now }
        ensures { IfOk result (λ x. x.tables ≡ settled_tables S.number (T.grammar tables.now) costs.now settled.now) }
    {
        tables.invariant_holds();
        let sole = sole_rules(alloc, tables, kinds)?;
        let lists = Lists::new(alloc, tables, costs, settled, kinds)?;
        Ok(OptimalTables {
            tables,
            costs,
            settled,
            sole,
            lists,
        })
    }

    /// A law, so the call does nothing: what is known of the productions is true.
    pub(crate) fn invariant_holds(&self)
        ensures { (n : ℕ) × IsKnown self.now n }
    {
        let _costs = &self.costs;
    }

    /// The greatest least cost of a rule plus one.
    pub(crate) fn costs_len(&self) -> usize
        ensures { result ≡ self.now.limit }
    {
        self.lists.base.len()
    }

    /// The rule of the production.
    pub(crate) fn rule_of(&self, p: PIdx<S>) -> RIdx<S>
        requires { S.number p.0 < length self.now.tables.grammar.productions }
        ensures value { S.number result.0 ≡ owner self.now.tables (S.number p.0) }
        ensures within { S.number result.0 < self.now.tables.grammar.rules }
        ensures limit { self.now.tables.grammar.rules < 2 ^ 32 }
    {
        self.tables.invariant_holds();
        self.tables.prod_to_rule(p)
    }

    /// The symbols of the production.
    pub(crate) fn symbols(&self, p: PIdx<S>) -> &[Symbol<S>]
        requires { S.number p.0 < length self.now.tables.grammar.productions }
        ensures { map (sym_of S.number) result.now ≡ sequence self.now.tables (S.number p.0) }
    {
        self.tables.prod(p)
    }

    /// Whether the rule has at most one optimal production.
    pub(crate) fn is_sole(&self, rule: RIdx<S>) -> bool
        requires { S.number rule.0 < self.now.tables.grammar.rules }
        ensures { result ≡ is_sole self.now (S.number rule.0) }
    {
        self.sole[usize::from(rule)]
    }

    /// The first production of a list.
    pub(crate) fn first(&self, listed: Listed<S>) -> Option<PIdx<S>>
        requires { HasList S.number self.now listed }
        ensures { IsFirstFrom S.number (IsIn S.number self.now.tables listed) 0 result }
    {
        match listed {
            Listed::Base(cost) => self.lists.base[cost],
            Listed::Chain(rule) => self.lists.chain[usize::from(rule)],
        }
    }

    /// The next production in the list of this one.
    pub(crate) fn next(&self, p: PIdx<S>) -> Option<PIdx<S>>
        requires { S.number p.0 < length self.now.tables.grammar.productions }
        ensures base { (c : ℕ) → IsBaseAt self.now.tables c (S.number p.0)
            → IsFirstFrom S.number (IsBaseAt self.now.tables c) (S.number p.0 + 1) result }
        ensures chain { (r : ℕ) → IsChain self.now.tables (S.number p.0) r
            → IsFirstFrom S.number (λ q. IsChain self.now.tables q r) (S.number p.0 + 1) result }
    {
        self.lists.next[usize::from(p)]
    }
}
