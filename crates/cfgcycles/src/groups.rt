//! Groups of rules that are on common cycles.

ghost use Rattle.std.specs.Prelude.{◌≡◌, ℕ, ◌<◌, List, None, Some, Contains, length, replicate};
ghost use Rattle.std.specs.Prelude.{slice_get, slice_index, IfOk, MatchOption, OnOk};
ghost use Rattle.cfgcycles.specs.CyclicGroups.{AreGroups};
ghost use Rattle.cfgcycles.specs.StepLists.{AreWithin, HasStep};
ghost use Rattle.cfgcycles.specs.StepPaths.{IsCycle, IsShortestCycle};
ghost use Rattle.cfgcycles.specs.Inner.Components.{Reaches};
ghost use Rattle.cfgcycles.specs.Inner.Members.{AreInner, IsGroupAmong};
ghost use Rattle.cfgcycles.specs.Inner.Putting.{ArePut};
ghost use Rattle.cfgcycles.specs.declared.step_paths.UnitStep.{UnitStep};

use crate::shortest::{Layers, find_cycle};
use crate::step_edges::StepEdges;
use crate::step_paths::{Steps, UnitStep};
use search::Components;
use std::alloc::{AllocError, Global};

/// Rules that are on a common cycle with the first of them, and a shortest cycle of that one.
#[derive(Drop)]
pub struct CyclicGroup {
    /// The numbers of the rules, in ascending order.
    pub rules: Vec<usize>,
    /// A shortest path of steps from the first rule to itself.
    pub cycle: Vec<UnitStep>,
}

/// For each rule the group of cyclic rules of which it is the first, or `None` if it is the first of none. In total
/// this takes the time of a few looks at each step.
///
/// # Errors
///
/// Out of memory.
pub fn cyclic_groups(alloc: Global, steps: &Steps) -> Result<Vec<Option<CyclicGroup>>, AllocError>
    requires { AreWithin steps.now }
    ensures { IfOk result (λ groups. AreGroups (HasStep steps.now) (length steps.now) groups.items) }
{
    let components = Components::of(alloc, &StepEdges { steps }, steps.len())?;
    let inner = inner_steps(alloc, steps, &components.numbers)?;
    let mut layers = Layers::new(alloc, &inner)?;
    let mut groups = Vec::new(alloc);
    for rule in 0..steps.len() {
        let members = components.members.of(components.numbers[rule]);
        let group = group_of(alloc, &mut layers, rule, members)?;
        groups.push(group)?;
    }
    Ok(groups)
}

/// The steps that lead to rules of the same component.
fn inner_steps(alloc: Global, steps: &Steps, numbers: &[usize]) -> Result<Steps, AllocError>
    requires within { AreWithin steps.now }
    requires numbers { length numbers.now ≡ length steps.now }
    ensures lists { IfOk result (λ inner. length inner ≡ length steps.now) }
    ensures inner { IfOk result (AreInner steps.now numbers.now) }
{
    let mut inner = Steps::new(alloc, steps.len())?;
    for rule in 0..steps.len() {
        put_inner(&mut inner, rule, steps.of(rule), numbers)?;
    }
    Ok(inner)
}

/// Adds those of the rule's steps that lead to rules of its component.
fn put_inner(
    inner: &mut Steps,
    rule: usize,
    path: &[UnitStep],
    numbers: &[usize],
) -> Result<(), AllocError>
    requires rule { rule < length inner.old }
    requires within { (step : UnitStep) → Contains path.now step → step.rule < length numbers.now }
    requires numbers { length numbers.now ≡ length inner.old }
    ensures { OnOk result (ArePut (λ a step. (a ≡ rule) × Contains path.now step
        × (slice_index numbers.now rule ≡ slice_index numbers.now step.rule)) inner.old inner.new) }
{
    for step in path {
        if numbers[rule] == numbers[step.rule] {
            inner.push(rule, *step)?;
        }
    }
    Ok(())
}

/// The group of the rule, if it is the first of these rules and has a cycle of these steps. `rules` has all rules that
/// the rule leads to.
fn group_of(
    alloc: Global,
    layers: &mut Layers,
    rule: usize,
    rules: &[usize],
) -> Result<Option<CyclicGroup>, AllocError>
    requires rule { rule < length layers.old.steps.now }
    requires within { AreWithin layers.old.steps.now }
    requires found { layers.old.found.items ≡ replicate (length layers.old.steps.now) None }
    requires all { (other : ℕ) → Reaches (HasStep layers.old.steps.now) rule other → Contains rules.now other }
    requires inside { (other : ℕ) → Contains rules.now other → other < length layers.old.steps.now }
    ensures steps { OnOk result (layers.new.steps.now ≡ layers.old.steps.now) }
    ensures found { OnOk result (layers.new.found.items ≡ layers.old.found.items) }
    ensures group { IfOk result (IsGroupAmong (HasStep layers.old.steps.now) rule rules.now) }
{
    if rules.first().copied() != Some(rule) {
        return Ok(None);
    }
    let found = find_cycle(alloc, layers, rule)?;
    layers.clear(rules);
    match found {
        Some(cycle) => {
            let rules = rules.to_vec(alloc)?;
            Ok(Some(CyclicGroup { rules, cycle }))
        }
        None => Ok(None),
    }
}
