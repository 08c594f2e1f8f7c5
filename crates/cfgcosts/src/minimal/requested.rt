//! The rules that a rule's minimal sentences are made of.

ghost use Rattle.std.specs.Prelude.{◌≡◌, ℕ, ◌<◌, IfOk, Some};
ghost use Rattle.cfgleast.specs.Generator.{cost_answer};
ghost use Rattle.cfgcosts.specs.Inner.Minimal.{AreRequested};

use crate::generator::SentenceGenerator;
use cfganalysis::reach_referred;
use cfgindex::{RIdx, Storage, to_storage};
use cfgleast::queue::Queue;
use cfgtables::Tables;
use search::Search;
use std::alloc::{AllocError, Global};

impl<'a, S: Storage, T: Tables<S>> SentenceGenerator<'a, S, T> {
    /// The cost of a rule that has one.
    fn known_cost(&self, rule: RIdx<S>) -> u32
        requires rule { S.number rule.0 < self.now.grammar.rules }
        requires known { (c : ℕ) × (cost_answer self.now (S.number rule.0) ≡ Some c) }
        ensures { cost_answer self.now (S.number rule.0) ≡ Some result }
    {
        match self.min_sentence_cost(rule) {
            Ok(cost) => u32::from(cost),
            Err(_) => 0,
        }
    }

    /// The rule, and the rules in base productions that the rules found so far reach, each with its cost.
    ///
    /// # Errors
    ///
    /// Out of memory.
    pub(crate) fn requested_rules(&self, alloc: Global, rule: RIdx<S>) -> Result<Queue, AllocError>
        requires rule { S.number rule.0 < self.now.grammar.rules }
        requires known { (c : ℕ) × (cost_answer self.now (S.number rule.0) ≡ Some c) }
        ensures { IfOk result (AreRequested self.now (S.number rule.0)) }
    {
        let mut requested = Queue::new(alloc);
        let mut search = Search::through_few(alloc, self.tables.rules_len().0.to_usize());
        search.reach(usize::from(rule))?;
        while let Some(node) = search.next() {
            let reachable = RIdx(to_storage(node));
            let base = self.base_productions(alloc, reachable)?;
            reach_referred(&mut search, self.tables, &base)?;
            requested.push(self.known_cost(reachable), reachable.0.to_usize() as u32)?;
        }
        Ok(requested)
    }
}
