//! Kernels, each of which has a number: the items of a state that have symbols read.

ghost use Rattle.std.specs.Prelude.{◌≡◌, ◌↔◌, ◌<◌, ℕ, [], Contains, IfOk, MatchOption, OnOk, get_or, length, map};
ghost use Rattle.std.specs.List.Sorted.{IsNonDecreasingBy};
ghost use Rattle.cfgrammar.specs.Numbered.{core};
ghost use Rattle.lr_states.specs.Inner.Closure.{IsClosure, IsOn, items_after};
ghost use Rattle.lr_states.specs.Inner.Kernels.{Adds, AreTargets, IsAmong, IsOne, automaton_of};
ghost use Rattle.lr_states.specs.Inner.Steps.{IsFirstGroup, items_by, items_of};
ghost use Rattle.lr_states.specs.Inner.Numbers.{place_of_symbol};
ghost use Rattle.lr_states.specs.Automaton.{AreAscending, AreGotos, HaveTargets};
ghost use Rattle.lr_states.specs.Viable.{AreStates, IsUsed};
ghost use Rattle.lr_states.specs.declared.Item.{Item};

use crate::Item;
use crate::closure::Used;
use crate::successors::{Step, successors};
use indexmap::IndexSet;
use std::alloc::{AllocError, Global};

/// Kernels in the order in which they were found.
type Kernels = IndexSet<Vec<Item>>;

/// A symbol, and the state that it leads to.
#[derive(Clone, Copy)]
pub struct Target {
    /// The number of the symbol: the rules have the first ones, and then come those of the tokens.
    pub symbol: usize,
    /// The number of the state.
    pub state: usize,
}

/// The index of the target for the symbol with this number.
pub(crate) fn place_of_symbol(targets: &[Target], symbol: usize) -> Option<usize>
    requires { AreAscending targets.now }
    ensures { result ≡ place_of_symbol targets.now symbol }
{
    let place = targets.partition_point(|target| target.symbol < symbol);
    if place < targets.len() && targets[place].symbol == symbol {
        Some(place)
    } else {
        None
    }
}

/// The items of a state, and the states that symbols lead to from it.
#[derive(Drop)]
pub(crate) struct Visited {
    pub(crate) items: Vec<Item>,
    pub(crate) targets: Vec<Target>,
}

/// The states of all viable prefixes.
///
/// # Errors
///
/// Out of memory.
pub(crate) fn explore(alloc: Global, used: &Used<'_>) -> Result<Vec<Visited>, AllocError>
    requires used { (p : ℕ) → IsOn used.now.bits p ↔ IsUsed (core used.now.grammar.now) p }
    ensures states { IfOk result (λ states. AreStates (core used.now.grammar.now) (IsUsed (core used.now.grammar.now))
        (map (λ v. v.items.items) states.items)) }
    ensures gotos { IfOk result (λ states. AreGotos (core used.now.grammar.now) (IsUsed (core used.now.grammar.now))
        (automaton_of (length used.now.grammar.now.rules) states.items)) }
    ensures targets { IfOk result (λ states. HaveTargets (core used.now.grammar.now)
        (automaton_of (length used.now.grammar.now.rules) states.items)) }
{
    used.grammar.invariant_holds();
    let viable = used.is_viable(alloc)?;
    if !viable {
        return Ok(Vec::new(alloc));
    }
    let mut kernels = IndexSet::new(alloc);
    kernels.insert(Vec::new(alloc))?;
    let mut states = Vec::new(alloc);
    for number in 0..usize::MAX {
        if number >= kernels.len() {
            break;
        }
        states.push(visit(alloc, used, &mut kernels, number)?)?;
    }
    let _count = kernels.len();
    Ok(states)
}

/// The items of the state whose kernel has this number. Adds the kernels of the states that come after it.
fn visit(
    alloc: Global,
    used: &Used<'_>,
    kernels: &mut Kernels,
    number: usize,
) -> Result<Visited, AllocError>
    requires number { number < length kernels.old.keys }
    requires used { (p : ℕ) → IsOn used.now.bits p ↔ IsUsed (core used.now.grammar.now) p }
    requires within { (item : Item) → Contains (get_or (map (λ key. key.items) kernels.old.keys) number []) item
        → item.production < length used.now.grammar.now.productions }
    ensures closure { IfOk result (λ v. IsClosure (core used.now.grammar.now) (IsUsed (core used.now.grammar.now))
        (get_or (map (λ key. key.items) kernels.old.keys) number []) v.items.items) }
    ensures adds { IfOk result (λ v. Adds (IsAmong (items_after (core used.now.grammar.now) v.items.items))
        (map (λ key. key.items) kernels.old.keys) (map (λ key. key.items) kernels.new.keys)) }
    ensures targets { IfOk result (λ v. AreTargets (items_after (core used.now.grammar.now) v.items.items)
        (map (λ key. key.items) kernels.new.keys) v.targets.items) }
{
    let items = used.closure(alloc, &kernels.as_slice()[number])?;
    let steps = successors(alloc, used.grammar, &items)?;
    let targets = add_kernels(alloc, kernels, &steps)?;
    Ok(Visited { items, targets })
}

/// Adds the items of the steps by each symbol as a kernel, and returns the numbers of these kernels.
fn add_kernels(
    alloc: Global,
    kernels: &mut Kernels,
    steps: &[Step],
) -> Result<Vec<Target>, AllocError>
    requires { IsNonDecreasingBy (λ step. step.symbol) steps.now }
    ensures adds { OnOk result (Adds (IsAmong (items_by steps.now))
        (map (λ key. key.items) kernels.old.keys) (map (λ key. key.items) kernels.new.keys)) }
    ensures targets { IfOk result (λ targets. AreTargets (items_by steps.now)
        (map (λ key. key.items) kernels.new.keys) targets.items) }
{
    let mut targets = Vec::new(alloc);
    let mut rest = steps;
    while let Some((symbol, group, others)) = first_group(rest) {
        let state = add_kernel(kernels, kernel_of(alloc, group)?)?;
        targets.push(Target { symbol, state })?;
        rest = others;
    }
    Ok(targets)
}

/// The symbol of the first step, the steps by it, and the others.
fn first_group(steps: &[Step]) -> Option<(usize, &[Step], &[Step])>
    requires { IsNonDecreasingBy (λ step. step.symbol) steps.now }
    ensures { MatchOption result (length steps.now ≡ 0)
        (λ first. IsFirstGroup steps.now first.0 first.1.now first.2.now) }
{
    let symbol = steps.first()?.symbol;
    let (group, others) = steps.split_at(steps.partition_point(|step| step.symbol <= symbol));
    Some((symbol, group, others))
}

/// The items of the steps.
fn kernel_of(alloc: Global, steps: &[Step]) -> Result<Vec<Item>, AllocError>
    ensures { IfOk result (λ kernel. kernel.items ≡ items_of steps.now) }
{
    steps.iter().map(|step| step.item).collect(alloc)
}

/// Adds the kernel, which has items, and returns its number.
fn add_kernel(kernels: &mut Kernels, kernel: Vec<Item>) -> Result<usize, AllocError>
    requires { 0 < length kernel.items }
    ensures adds { OnOk result (Adds (IsOne kernel.items)
        (map (λ key. key.items) kernels.old.keys) (map (λ key. key.items) kernels.new.keys)) }
    ensures number { IfOk result (λ number. number < length kernels.new.keys) }
    ensures is { IfOk result (λ number. get_or (map (λ key. key.items) kernels.new.keys) number [] ≡ kernel.items) }
{
    let (number, _) = kernels.insert_full(kernel)?;
    Ok(number)
}
