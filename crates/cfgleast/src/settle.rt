//! Least costs: the rule of the cheapest production is settled, until no production is left whose rules are all settled
//! (Knuth, A generalization of Dijkstra's algorithm, 1977).

ghost use Rattle.std.specs.Prelude.{◌≡◌, ◌+◌, ◌^◌, ◌<◌, ◌≤◌, [], IfOk, None, OnOk, Some};
ghost use Rattle.std.specs.Prelude.{length, map, replicate, slice_index, slice_set};
ghost use Rattle.derivation.specs.Grammar.{IsGrammar};
ghost use Rattle.derivation.specs.CostLists.{rule_cost};
ghost use Rattle.cfgleast.specs.Certificate.{choice_of};
ghost use Rattle.cfgleast.specs.Inner.Open.{AreAllOpen, AreBests, AreInput, count_open};
ghost use Rattle.cfgleast.specs.Inner.Open.{HasPopped};
ghost use Rattle.cfgleast.specs.Settled.{AreSettledSoFar, AreSettled};

use crate::partial::Waitlists;
use crate::queue::Queue;
use crate::walk::{start, wake};
use cfgindex::{PIdx, Storage, to_storage};
use cfgtables::Tables;
use std::alloc::{AllocError, Global};

/// The rules that are settled.
#[derive(Drop)]
pub struct Settled<S: Storage> {
    /// For each rule its least cost, cut down to 65536, if it is settled.
    pub least: Vec<Option<u32>>,
    /// The production that settled it, and how many rules were settled before it.
    pub choices: Vec<Option<(PIdx<S>, u32)>>,
    pub number: u32,
}

/// No choices, for this many rules.
///
/// # Errors
///
/// Out of memory.
pub fn no_choices<S: Storage>(
    alloc: Global,
    rules: usize,
) -> Result<Vec<Option<(PIdx<S>, u32)>>, AllocError>
    ensures { IfOk result (λ choices. map (choice_of S.number) choices.items ≡ replicate rules None) }
{
    let mut choices = Vec::new(alloc);
    for _rule in 0..rules {
        choices.push(None)?;
    }
    Ok(choices)
}

impl<S: Storage> Settled<S> {
    /// No rule is settled.
    ///
    /// # Errors
    ///
    /// Out of memory.
    fn new(alloc: Global, rules: usize) -> Result<Self, AllocError>
        ensures least { IfOk result (λ x. x.least.items ≡ replicate rules None) }
        ensures choices { IfOk result (λ x. map (choice_of S.number) x.choices.items ≡ replicate rules None) }
        ensures number { IfOk result (λ x. x.number ≡ 0) }
    {
        let least = vec![in alloc; None; rules]?;
        let choices = no_choices(alloc, rules)?;
        Ok(Settled {
            least,
            choices,
            number: 0,
        })
    }

    /// Settles a rule by a production.
    fn settle(&mut self, rule: usize, cost: u32, p: PIdx<S>)
        requires least { rule < length self.old.least.items }
        requires choices { rule < length self.old.choices.items }
        requires number { self.old.number + 1 < 2 ^ 32 }
        ensures least { self.new.least.items ≡ slice_set self.old.least.items rule (Some cost) }
        ensures choices { map (choice_of S.number) self.new.choices.items
            ≡ slice_set (map (choice_of S.number) self.old.choices.items) rule
            (Some (S.number p.0, self.old.number)) }
        ensures number { self.new.number ≡ self.old.number + 1 }
    {
        self.least[rule] = Some(cost);
        self.choices[rule] = Some((p, self.number));
        self.number += 1;
    }
}

/// Settles the rule of a production that was removed from the queue, with its sum, if the rule isn't settled yet.
///
/// # Errors
///
/// Out of memory.
fn settle_next<S: Storage, T: Tables<S>>(
    grm: &T,
    costs: &[u8],
    settled: &mut Settled<S>,
    queue: &mut Queue,
    bests: &mut [u32],
    waiting: &mut Waitlists,
    top: (u32, u32),
) -> Result<(), AllocError>
    requires input { AreInput (T.grammar grm.now) S.MAX costs.now settled.old.least.items }
    requires small { (T.grammar grm.now).rules < 2 ^ 32 }
    requires lists { length waiting.old ≡ (T.grammar grm.now).rules }
    requires chosen { AreSettledSoFar (T.grammar grm.now) (slice_index costs.now) settled.old.least.items
        (map (choice_of S.number) settled.old.choices.items) settled.old.number }
    requires popped { HasPopped (T.grammar grm.now) (slice_index costs.now) settled.old.least.items
        top queue.old bests.old waiting.old }
    ensures input { OnOk result (AreInput (T.grammar grm.now) S.MAX costs.now settled.new.least.items) }
    ensures lists { OnOk result (length waiting.new ≡ (T.grammar grm.now).rules) }
    ensures chosen { OnOk result (AreSettledSoFar (T.grammar grm.now) (slice_index costs.now) settled.new.least.items
        (map (choice_of S.number) settled.new.choices.items) settled.new.number) }
    ensures state { OnOk result (AreAllOpen (slice_index costs.now) (rule_cost settled.new.least.items)
        (T.grammar grm.now)
        queue.new waiting.new) }
    ensures bests { OnOk result (AreBests (slice_index costs.now) (rule_cost settled.new.least.items)
        (T.grammar grm.now)
        queue.new bests.new) }
    ensures count { OnOk result (count_open queue.new waiting.new ≤ count_open queue.old waiting.old) }
{
    let (cost, index) = top;
    let p = PIdx(to_storage(index as usize));
    let rule = usize::from(grm.prod_to_rule(p));
    if settled.least[rule].is_some() {
        return Ok(());
    }
    settled.settle(rule, cost, p);
    let woken = waiting.take(rule);
    wake(grm, costs, &settled.least, &woken, queue, bests, waiting)
}

/// Settles the rule of the cheapest production, until no production is left whose rules are all settled.
///
/// # Errors
///
/// Out of memory.
fn settle_all<S: Storage, T: Tables<S>>(
    grm: &T,
    costs: &[u8],
    settled: &mut Settled<S>,
    queue: &mut Queue,
    bests: &mut [u32],
    waiting: &mut Waitlists,
) -> Result<(), AllocError>
    requires costs { length costs.now ≡ (T.grammar grm.now).tokens }
    requires least { settled.old.least.items ≡ replicate (T.grammar grm.now).rules None }
    requires choices { map (choice_of S.number) settled.old.choices.items ≡ replicate (T.grammar grm.now).rules None }
    requires number { settled.old.number ≡ 0 }
    requires queue { queue.old ≡ [] }
    requires bests { bests.old ≡ replicate (T.grammar grm.now).rules u32.MAX }
    requires waiting { waiting.old ≡ replicate (T.grammar grm.now).rules [] }
    ensures { OnOk result (AreSettled (T.grammar grm.now) (slice_index costs.now) settled.new.least.items
        (map (choice_of S.number) settled.new.choices.items) settled.new.number) }
{
    grm.invariant_holds();
    let prods_len = grm.prods_len().0.to_usize();
    start(grm, prods_len, costs, &settled.least, queue, bests, waiting)?;
    while let Some(top) = queue.pop() {
        settle_next(grm, costs, settled, queue, bests, waiting, top)?;
    }
    Ok(())
}

/// The least costs of all rules, cut down to 65536.
///
/// # Errors
///
/// Out of memory.
pub fn settle<S: Storage, T: Tables<S>>(
    alloc: Global,
    grm: &T,
    costs: &[u8],
) -> Result<Settled<S>, AllocError>
    requires { length costs.now ≡ (T.grammar grm.now).tokens }
    ensures { IfOk result (λ x. AreSettled (T.grammar grm.now) (slice_index costs.now) x.least.items
        (map (choice_of S.number) x.choices.items) x.number) }
{
    let rules_len = grm.rules_len().0.to_usize();
    let mut settled = Settled::new(alloc, rules_len)?;
    let mut queue = Queue::new(alloc);
    let mut bests = vec![in alloc; u32::MAX; rules_len]?;
    let mut waiting = Waitlists::new(alloc, rules_len)?;
    settle_all(
        grm,
        costs,
        &mut settled,
        &mut queue,
        &mut bests,
        &mut waiting,
    )?;
    Ok(settled)
}
