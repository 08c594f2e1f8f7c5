//! How productions advance towards their sums.

ghost use Rattle.std.specs.Prelude.{◌≡◌, ◌+◌, ◌^◌, ◌<◌, ◌≤◌, [], All, IfErr, IfOk, None, OnOk};
ghost use Rattle.std.specs.Prelude.{Some, length, map, replicate, slice_index, take};
ghost use Rattle.derivation.specs.Grammar.{Rule};
ghost use Rattle.cfgtables.specs.NumberedSymbols.{sym_of};
ghost use Rattle.derivation.specs.CostLists.{IsListed, rule_cost};
ghost use Rattle.cfgleast.specs.CutSums.{IsCutSum, StopsAt};
ghost use Rattle.cfgleast.specs.Inner.Open.{AreAllOpen, AreBests, AreInput, AreWaking, IsPartial};
ghost use Rattle.cfgleast.specs.Inner.Open.{MovesOn, Enqueues, count_open};
ghost use Rattle.derivation.specs.Sums.{symbol_cost};

use crate::partial::{Partial, Waitlists};
use crate::queue::Queue;
use cfgindex::{PIdx, Storage, Symbol, to_storage};
use cfgtables::Tables;
use std::alloc::AllocError;

/// The least cost that is too large to return.
pub const TOO_LARGE: u32 = 65536;

/// What a symbol costs, or a rule that isn't settled.
fn settled_cost<S: Storage>(
    costs: &[u8],
    least: &[Option<u32>],
    symbol: Symbol<S>,
) -> Result<u32, usize>
    requires { IsListed (length least.now) (length costs.now) (sym_of S.number symbol) }
    ensures cost { IfOk result (λ c.
        symbol_cost (slice_index costs.now) (rule_cost least.now) (sym_of S.number symbol) ≡ Some c) }
    ensures rule { IfErr result (λ r. sym_of S.number symbol ≡ Rule r) }
    ensures unset { IfErr result (λ r. rule_cost least.now r ≡ None) }
{
    match symbol {
        Symbol::Rule(rule) => least[usize::from(rule)].ok_or(usize::from(rule)),
        Symbol::Token(token) => Ok(u32::from(costs[usize::from(token)])),
    }
}

/// What the symbols cost in total, cut down to `TOO_LARGE`; or a rule among them that isn't settled, with the sum of
/// those before it. `partial` has the sum of the first symbols.
pub fn walk<S: Storage>(
    costs: &[u8],
    least: &[Option<u32>],
    symbols: &[Symbol<S>],
    partial: Partial,
) -> Result<u32, (usize, Partial)>
    requires listed { All (IsListed (length least.now) (length costs.now)) (map (sym_of S.number) symbols.now) }
    requires taken { partial.taken ≤ length symbols.now }
    requires sum { IsCutSum (slice_index costs.now) (rule_cost least.now)
        (take partial.taken (map (sym_of S.number) symbols.now)) partial.sum }
    ensures whole { IfOk result (λ c.
        IsCutSum (slice_index costs.now) (rule_cost least.now) (map (sym_of S.number) symbols.now) c) }
    ensures stop { IfErr result (λ stop.
        StopsAt (slice_index costs.now) (rule_cost least.now) (map (sym_of S.number) symbols.now) stop.0 stop.1) }
    ensures same { IfErr result (λ stop. stop.1.production ≡ partial.production) }
{
    let Partial {
        production,
        taken,
        mut sum,
    } = partial;
    for index in taken..symbols.len() {
        match settled_cost(costs, least, symbols[index]) {
            Ok(cost) => sum = TOO_LARGE.min(sum.saturating_add(cost)),
            Err(rule) => {
                let taken = index;
                return Err((
                    rule,
                    Partial {
                        production,
                        taken,
                        sum,
                    },
                ));
            }
        }
    }
    Ok(sum)
}

/// Queues a production of the rule with its sum, unless an earlier one has at most this sum.
///
/// # Errors
///
/// Out of memory.
fn enqueue(
    rule: usize,
    sum: u32,
    production: u32,
    queue: &mut Queue,
    bests: &mut [u32],
) -> Result<(), AllocError>
    requires { rule < length bests.old }
    ensures { OnOk result (Enqueues rule sum production queue.old queue.new bests.old bests.new) }
{
    if bests[rule] <= sum {
        return Ok(());
    }
    bests[rule] = sum;
    queue.push(sum, production)
}

/// Advances a production from what was summed: it is queued or dropped, or waits for a rule.
///
/// # Errors
///
/// Out of memory.
fn advance<S: Storage, T: Tables<S>>(
    grm: &T,
    costs: &[u8],
    least: &[Option<u32>],
    partial: Partial,
    queue: &mut Queue,
    bests: &mut [u32],
    waiting: &mut Waitlists,
) -> Result<(), AllocError>
    requires input { AreInput (T.grammar grm.now) S.MAX costs.now least.now }
    requires lists { length waiting.old ≡ (T.grammar grm.now).rules }
    requires bests { AreBests (slice_index costs.now) (rule_cost least.now) (T.grammar grm.now) queue.old bests.old }
    requires partial { IsPartial (slice_index costs.now) (rule_cost least.now) (T.grammar grm.now) partial }
    ensures moves { OnOk result (MovesOn (slice_index costs.now) (rule_cost least.now) (T.grammar grm.now)
        partial.production queue.old queue.new waiting.old waiting.new) }
    ensures bests { OnOk result (AreBests (slice_index costs.now) (rule_cost least.now) (T.grammar grm.now)
        queue.new bests.new) }
{
    let production = partial.production;
    let p = PIdx(to_storage(production as usize));
    let symbols = grm.prod(p);
    match walk(costs, least, symbols, partial) {
        Ok(sum) => {
            let rule = usize::from(grm.prod_to_rule(p));
            enqueue(rule, sum, production, queue, bests)
        }
        Err((rule, partial)) => waiting.push(rule, partial),
    }
}

/// Starts all productions, when no rule is settled.
///
/// # Errors
///
/// Out of memory.
pub(crate) fn start<S: Storage, T: Tables<S>>(
    grm: &T,
    prods_len: usize,
    costs: &[u8],
    least: &[Option<u32>],
    queue: &mut Queue,
    bests: &mut [u32],
    waiting: &mut Waitlists,
) -> Result<(), AllocError>
    requires input { AreInput (T.grammar grm.now) S.MAX costs.now least.now }
    requires prods { prods_len ≡ length (T.grammar grm.now).productions }
    requires small { prods_len < 2 ^ 32 }
    requires least { least.now ≡ replicate (T.grammar grm.now).rules None }
    requires queue { queue.old ≡ [] }
    requires waiting { waiting.old ≡ replicate (T.grammar grm.now).rules [] }
    requires bests { AreBests (slice_index costs.now) (rule_cost least.now) (T.grammar grm.now) [] bests.old }
    ensures state { OnOk result (AreAllOpen (slice_index costs.now) (rule_cost least.now) (T.grammar grm.now)
        queue.new waiting.new) }
    ensures bests { OnOk result (AreBests (slice_index costs.now) (rule_cost least.now) (T.grammar grm.now)
        queue.new bests.new) }
    ensures lists { OnOk result (length waiting.new ≡ (T.grammar grm.now).rules) }
{
    for number in 0..prods_len {
        let partial = Partial {
            production: number as u32,
            taken: 0,
            sum: 0,
        };
        advance(grm, costs, least, partial, queue, bests, waiting)?;
    }
    Ok(())
}

/// Advances the productions that waited for a rule, when it is settled.
///
/// # Errors
///
/// Out of memory.
pub(crate) fn wake<S: Storage, T: Tables<S>>(
    grm: &T,
    costs: &[u8],
    least: &[Option<u32>],
    woken: &[Partial],
    queue: &mut Queue,
    bests: &mut [u32],
    waiting: &mut Waitlists,
) -> Result<(), AllocError>
    requires input { AreInput (T.grammar grm.now) S.MAX costs.now least.now }
    requires lists { length waiting.old ≡ (T.grammar grm.now).rules }
    requires woken { AreWaking (slice_index costs.now) (rule_cost least.now) (T.grammar grm.now)
        queue.old waiting.old woken.now 0 }
    requires bests { AreBests (slice_index costs.now) (rule_cost least.now) (T.grammar grm.now) queue.old bests.old }
    ensures state { OnOk result (AreAllOpen (slice_index costs.now) (rule_cost least.now) (T.grammar grm.now)
        queue.new waiting.new) }
    ensures lists { OnOk result (length waiting.new ≡ (T.grammar grm.now).rules) }
    ensures bests { OnOk result (AreBests (slice_index costs.now) (rule_cost least.now) (T.grammar grm.now)
        queue.new bests.new) }
    ensures count { OnOk result (count_open queue.new waiting.new
        ≤ count_open queue.old waiting.old + length woken.now) }
{
    for partial in woken {
        advance(grm, costs, least, *partial, queue, bests, waiting)?;
    }
    Ok(())
}
