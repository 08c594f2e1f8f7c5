//! Rules as the nodes of a graph.

ghost use Rattle.std.specs.Prelude.{◌≡◌, ◌<◌, length, OnOk};

use cfganalysis::{are_productive, reach_symbols};
use cfgindex::{RIdx, Storage, Vob, to_storage};
use cfgtables::Tables;
use search::{Bits, Edges, Search};
use std::alloc::AllocError;
use std::marker::PhantomData;

/// The rules of a grammar, each of which leads to those in its productions, where these contain no unproductive rule.
/// A rule costs as much as those that it leads to.
#[derive(Drop)]
pub(crate) struct RuleEdges<'a, S: Storage, T: Tables<S>> {
    pub(crate) tables: &'a T,
    /// A bit for each rule.
    pub(crate) productive: &'a Vob,
    pub(crate) storage: PhantomData<S>,
}

impl<'a, S: Storage, T: Tables<S>> Edges<Bits> for RuleEdges<'a, S, T> {
    ghost use Rattle.cfggreatest.specs.Inner.Edges.{IsEdge};

    ghost nodes = { λ x. (T.grammar x.tables.now).rules };

    ghost leads = { λ x. IsEdge (T.grammar x.tables.now) x.productive.now };

    fn reach_from(&self, node: usize, search: &mut Search) -> Result<(), AllocError> {
        let _rules = self.tables.rules_len().0.to_usize();
        for production in self.tables.rule_to_prods(RIdx(to_storage(node))) {
            let symbols = self.tables.prod(*production);
            if are_productive(self.productive, symbols) {
                reach_symbols(search, symbols)?;
            }
        }
        Ok(())
    }
}
