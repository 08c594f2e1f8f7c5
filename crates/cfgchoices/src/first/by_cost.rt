//! Choices for rules of the same cost, by increasing cost.

ghost use Rattle.std.specs.Prelude.{◌≡◌, ◌+◌, ◌<◌, IfOk, OnOk, map};
ghost use Rattle.cfgleast.specs.Certificate.{choice_of};
ghost use Rattle.cfgleast.specs.Generator.{IsGeneratorOf, settled_tables, tables_of};
ghost use Rattle.cfgchoices.specs.FirstChoices.{AreFirst, AreChosen};
ghost use Rattle.cfgchoices.specs.Kinds.{AreKinds};
ghost use Rattle.cfgchoices.specs.Inner.Candidates.{CheaperChosen, with_choices, candidates_of};

use crate::first::candidates::Chooser;
use crate::first::lists::{Listed, no_productions};
use crate::first::optimal::OptimalTables;
use crate::kinds::Kind;
use cfgindex::{PIdx, Storage};
use cfgleast::settle::{Settled, no_choices};
use cfgtables::Tables;
use std::alloc::{AllocError, Global};
use std::collections::VecDeque;

impl<S: Storage> Chooser<S> {
    /// Chooses for all rules of this cost, after all rules that cost less have their choices.
    ///
    /// # Errors
    ///
    /// Out of memory.
    fn choose_at_cost<T: Tables<S>>(
        &mut self,
        optimal: &OptimalTables<S, T>,
        cost: usize,
    ) -> Result<(), AllocError>
        requires climbed { CheaperChosen optimal.now (candidates_of S.number self.old) cost }
        requires within { cost < optimal.now.limit }
        ensures { OnOk result (CheaperChosen optimal.now (candidates_of S.number self.new) (cost + 1)) }
    {
        optimal.invariant_holds();
        self.cost = cost;
        self.nominate_listed(optimal, Listed::Base(cost))?;
        while self.choose(optimal)? {}
        Ok(())
    }
}

/// The choices of all rules, made by increasing cost.
///
/// # Errors
///
/// Out of memory.
fn choices_by_cost<S: Storage, T: Tables<S>>(
    alloc: Global,
    optimal: &OptimalTables<S, T>,
    rules_len: usize,
) -> Result<Vec<Option<(PIdx<S>, u32)>>, AllocError>
    requires { rules_len ≡ optimal.now.tables.grammar.rules }
    ensures walks { IfOk result (λ firsts. AreChosen (with_choices optimal.now.tables
        (map (choice_of S.number) firsts.items))) }
    ensures first { IfOk result (λ firsts. AreFirst (with_choices optimal.now.tables
        (map (choice_of S.number) firsts.items))) }
{
    optimal.invariant_holds();
    let mut chooser = Chooser {
        alloc,
        choices: no_choices(alloc, rules_len)?,
        number: 0,
        cost: 0,
        ready: Vec::new(alloc),
        sorted: VecDeque::new(alloc),
        foremost: no_productions(alloc, rules_len)?,
    };
    for cost in 1..optimal.costs_len() {
        chooser.choose_at_cost(optimal, cost)?;
    }
    Ok(chooser.choices)
}

/// For each rule that costs something, the production that makes its first minimal sentence, and a number, which is
/// greater than those of the rules in the production.
///
/// # Errors
///
/// Out of memory.
pub fn first_choices<S: Storage, T: Tables<S>>(
    alloc: Global,
    tables: &T,
    costs: &[u8],
    settled: &Settled<S>,
    kinds: &[Kind<S>],
) -> Result<Vec<Option<(PIdx<S>, u32)>>, AllocError>
    requires generator { IsGeneratorOf S.number (T.grammar tables.now) costs.now settled.now }
    requires kinds { AreKinds S.number (settled_tables S.number (T.grammar tables.now) costs.now settled.now)
        kinds.now }
    ensures walks { IfOk result (λ firsts. AreChosen (tables_of S.number (T.grammar tables.now) costs.now
        settled.now.least.items firsts.items)) }
    ensures first { IfOk result (λ firsts. AreFirst (tables_of S.number (T.grammar tables.now) costs.now
        settled.now.least.items firsts.items)) }
{
    let optimal = OptimalTables::new(alloc, tables, costs, settled, kinds)?;
    choices_by_cost(alloc, &optimal, usize::from(tables.rules_len()))
}
