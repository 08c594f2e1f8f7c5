//! Optimal productions: chain productions, which lead to a rule of the same cost, and base productions.

ghost use Rattle.std.specs.Prelude.{◌≡◌, ◌↔◌, ℕ, ◌<◌, Contains, IfOk, OnOk, length};
ghost use Rattle.cfgtables.specs.Openings.{nth_production};
ghost use Rattle.search.specs.Reachable.{Reaches};
ghost use Rattle.cfgchoices.specs.Kinds.{LeadsTo, IsBase, ReachesBase, production_numbers};
ghost use Rattle.cfgcosts.specs.Inner.Minimal.{Lists};

use crate::generator::SentenceGenerator;
use cfgchoices::kinds::Kind;
use cfgindex::{PIdx, RIdx, Storage, to_storage};
use cfgtables::Tables;
use search::{Few, Search};
use std::alloc::{AllocError, Global};

impl<'a, S: Storage, T: Tables<S>> SentenceGenerator<'a, S, T> {
    /// Queues the rules that the rule's chain productions lead to, and lists its base productions.
    ///
    /// # Errors
    ///
    /// Out of memory.
    fn go_through(
        &self,
        rule: RIdx<S>,
        search: &mut Search<Few>,
        base: &mut Vec<PIdx<S>>,
    ) -> Result<(), AllocError>
        requires rule { S.number rule.0 < self.now.grammar.rules }
        requires rules { length search.old.reachable ≡ self.now.grammar.rules }
        ensures targets { OnOk result (Reaches (LeadsTo self.now (S.number rule.0)) search.old search.new) }
        ensures base { OnOk result (Lists
            (λ p. ((nth_production self.now.grammar p).rule ≡ S.number rule.0) × IsBase self.now p)
            (production_numbers S.number base.old.items) (production_numbers S.number base.new.items)) }
    {
        self.invariant_holds();
        for p in self.tables.rule_to_prods(rule) {
            let kind = self.kinds[usize::from(*p)];
            match kind {
                Kind::Suboptimal => {}
                Kind::Base => base.push(*p)?,
                Kind::Chain(target) => search.reach(usize::from(target))?,
            }
        }
        Ok(())
    }

    /// The base productions of the rule, and of all rules that chain productions lead to from it.
    ///
    /// # Errors
    ///
    /// Out of memory.
    pub(crate) fn base_productions(
        &self,
        alloc: Global,
        rule: RIdx<S>,
    ) -> Result<Vec<PIdx<S>>, AllocError>
        requires { S.number rule.0 < self.now.grammar.rules }
        ensures { IfOk result (λ base. (p : ℕ) → Contains (production_numbers S.number base.items) p
            ↔ ReachesBase self.now (S.number rule.0) p) }
    {
        let mut base = Vec::new(alloc);
        let mut search = Search::through_few(alloc, self.tables.rules_len().0.to_usize());
        search.reach(usize::from(rule))?;
        while let Some(node) = search.next() {
            self.go_through(RIdx(to_storage(node)), &mut search, &mut base)?;
        }
        Ok(base)
    }
}
