//! The optimal productions of rules, and the rules in them.

ghost use Rattle.std.specs.Prelude.{◌≡◌, ◌↔◌, ℕ, ◌<◌, Contains, IfOk, IsTrue, OnOk, length};
ghost use Rattle.cfgtables.specs.Openings.{nth_production};
ghost use Rattle.search.specs.Reachable.{Reaches};
ghost use Rattle.cfgchoices.specs.Kinds.{IsOptimal, production_numbers};
ghost use Rattle.cfgcosts.specs.Inner.Minimal.{Lists, Uses};

use crate::generator::SentenceGenerator;
use cfganalysis::reach_referred;
use cfgchoices::kinds::Kind;
use cfgindex::{PIdx, RIdx, Storage, to_storage};
use cfgtables::Tables;
use search::{Bits, Edges, Search};
use std::alloc::{AllocError, Global};
use std::slice::from_ref;

impl<'a, S: Storage, T: Tables<S>> SentenceGenerator<'a, S, T> {
    /// Whether the production is optimal.
    fn is_optimal(&self, p: PIdx<S>) -> bool
        requires { S.number p.0 < length self.now.grammar.productions }
        ensures { IsTrue result ↔ IsOptimal self.now (S.number p.0) }
    {
        match self.kinds[usize::from(p)] {
            Kind::Suboptimal => false,
            Kind::Base => true,
            Kind::Chain(_) => true,
        }
    }

    /// Adds the optimal productions of the rule.
    ///
    /// # Errors
    ///
    /// Out of memory.
    fn push_optimal(&self, rule: RIdx<S>, optimal: &mut Vec<PIdx<S>>) -> Result<(), AllocError>
        requires { S.number rule.0 < self.now.grammar.rules }
        ensures { OnOk result (Lists
            (λ p. ((nth_production self.now.grammar p).rule ≡ S.number rule.0) × IsOptimal self.now p)
            (production_numbers S.number optimal.old.items) (production_numbers S.number optimal.new.items)) }
    {
        for p in self.tables.rule_to_prods(rule) {
            if self.is_optimal(*p) {
                optimal.push(*p)?;
            }
        }
        Ok(())
    }

    /// The optimal productions of the rules.
    ///
    /// # Errors
    ///
    /// Out of memory.
    pub(crate) fn optimal_productions(
        &self,
        alloc: Global,
        rules: &[usize],
    ) -> Result<Vec<PIdx<S>>, AllocError>
        requires { (r : ℕ) → Contains rules.now r → r < self.now.grammar.rules }
        ensures { IfOk result (λ optimal. (p : ℕ) → Contains (production_numbers S.number optimal.items) p
            ↔ (Contains rules.now (nth_production self.now.grammar p).rule × IsOptimal self.now p)) }
    {
        self.invariant_holds();
        let mut optimal = Vec::new(alloc);
        for rule in rules {
            self.push_optimal(RIdx(to_storage(*rule)), &mut optimal)?;
        }
        Ok(optimal)
    }

    /// Queues the rules in the rule's optimal productions.
    ///
    /// # Errors
    ///
    /// Out of memory.
    fn reach_used(&self, alloc: Global, rule: usize, search: &mut Search) -> Result<(), AllocError>
        requires rule { rule < self.now.grammar.rules }
        requires rules { length search.old.reachable ≡ self.now.grammar.rules }
        ensures { OnOk result (Reaches (Uses self.now rule) search.old search.new) }
    {
        let optimal = self.optimal_productions(alloc, from_ref(&rule))?;
        reach_referred(search, self.tables, &optimal)
    }
}

/// The rules of a grammar, each of which leads to those in its optimal productions.
#[derive(Drop)]
pub(crate) struct OptimalUses<'a, S: Storage, T: Tables<S>> {
    pub(crate) alloc: Global,
    pub(crate) generator: &'a SentenceGenerator<'a, S, T>,
}

impl<'a, S: Storage, T: Tables<S>> Edges<Bits> for OptimalUses<'a, S, T> {
    ghost use Rattle.cfgcosts.specs.Inner.Minimal.{Uses};

    ghost nodes = { λ x. x.generator.now.grammar.rules };

    ghost leads = { λ x. Uses x.generator.now };

    fn reach_from(&self, node: usize, search: &mut Search) -> Result<(), AllocError> {
        self.generator.reach_used(self.alloc, node, search)
    }
}
