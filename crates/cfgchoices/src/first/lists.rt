//! Lists of productions: the chain productions that lead to one rule, and the base productions of one cost.

ghost use Rattle.std.specs.Prelude.{◌≡◌, ℕ, ◌+◌, ◌<◌, IfOk, None, Some, length, replicate};
ghost use Rattle.derivation.specs.CostLists.{rule_cost};
ghost use Rattle.cfgleast.specs.Generator.{IsGeneratorOf, settled_tables};
ghost use Rattle.cfgchoices.specs.Kinds.{AreKinds, IsKind};
ghost use Rattle.cfgchoices.specs.Inner.Lists.{AreLists};

use crate::kinds::Kind;
use cfgindex::{PIdx, RIdx, Storage, to_storage};
use cfgleast::settle::Settled;
use cfgtables::Tables;
use std::alloc::{AllocError, Global};

/// Which productions are in a list.
#[derive(Clone, Copy)]
pub(crate) enum Listed<S> {
    /// Base productions of this cost.
    Base(usize),
    /// Chain productions that lead to this rule.
    Chain(RIdx<S>),
}

/// Linked lists of productions: the first production of each list, and the next one after each production.
#[derive(Drop)]
pub(crate) struct Lists<S: Storage> {
    pub(crate) base: Vec<Option<PIdx<S>>>,
    pub(crate) chain: Vec<Option<PIdx<S>>>,
    pub(crate) next: Vec<Option<PIdx<S>>>,
}

/// A list of this length, without productions.
///
/// # Errors
///
/// Out of memory.
pub(crate) fn no_productions<S: Storage>(
    alloc: Global,
    len: usize,
) -> Result<Vec<Option<PIdx<S>>>, AllocError>
    ensures { IfOk result (λ list. list.items ≡ replicate len None) }
{
    vec![in alloc; None; len]
}

/// The greatest of these costs plus one.
fn costs_len(least: &[Option<u32>]) -> usize
    ensures { (r c : ℕ) → rule_cost least.now r ≡ Some c → c < result }
{
    let mut len = 0;
    for entry in least {
        if let Some(cost) = *entry {
            if len <= cost as usize {
                len = cost as usize + 1;
            }
        }
    }
    len
}

impl<S: Storage> Lists<S> {
    /// Puts a production at the start of its list, if it is optimal.
    fn add<T: Tables<S>>(
        &mut self,
        tables: &T,
        costs: &[u8],
        settled: &Settled<S>,
        kind: Kind<S>,
        p: PIdx<S>,
    )
        requires generator { IsGeneratorOf S.number (T.grammar tables.now) costs.now settled.now }
        requires index { S.number p.0 < length (T.grammar tables.now).productions }
        requires kind { IsKind S.number (settled_tables S.number (T.grammar tables.now) costs.now settled.now)
            (S.number p.0) kind }
        requires lists { AreLists S.number (settled_tables S.number (T.grammar tables.now) costs.now settled.now)
            (S.number p.0 + 1) self.old }
        ensures { AreLists S.number (settled_tables S.number (T.grammar tables.now) costs.now settled.now)
            (S.number p.0) self.new }
    {
        tables.invariant_holds();
        match kind {
            Kind::Suboptimal => {}
            Kind::Base => {
                if let Some(cost) = settled.least[usize::from(tables.prod_to_rule(p))] {
                    self.next[usize::from(p)] = self.base[cost as usize];
                    self.base[cost as usize] = Some(p);
                }
            }
            Kind::Chain(rule) => {
                self.next[usize::from(p)] = self.chain[usize::from(rule)];
                self.chain[usize::from(rule)] = Some(p);
            }
        }
    }

    /// The optimal productions, in lists.
    ///
    /// # Errors
    ///
    /// Out of memory.
    pub(crate) fn new<T: Tables<S>>(
        alloc: Global,
        tables: &T,
        costs: &[u8],
        settled: &Settled<S>,
        kinds: &[Kind<S>],
    ) -> Result<Self, AllocError>
        requires generator { IsGeneratorOf S.number (T.grammar tables.now) costs.now settled.now }
        requires kinds { AreKinds S.number (settled_tables S.number (T.grammar tables.now) costs.now settled.now)
            kinds.now }
        ensures { IfOk result (AreLists S.number (settled_tables S.number (T.grammar tables.now) costs.now settled.now)
            0) }
    {
        tables.invariant_holds();
        let mut lists = Lists {
            base: no_productions(alloc, costs_len(&settled.least))?,
            chain: no_productions(alloc, usize::from(tables.rules_len()))?,
            next: no_productions(alloc, kinds.len())?,
        };
        let mut left = kinds.len();
        while left > 0 {
            left -= 1;
            lists.add(tables, costs, settled, kinds[left], PIdx(to_storage(left)));
        }
        Ok(lists)
    }
}
