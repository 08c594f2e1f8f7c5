//! Shortest cycles, by layers of rules.

ghost use Rattle.std.specs.Prelude.{◌≡◌, ℕ, ◌<◌, [], None, Some, Contains, get_or, is_some, length};
ghost use Rattle.std.specs.Prelude.{replicate, IfOk, MatchOption, OnOk};
ghost use Rattle.cfgcycles.specs.StepLists.{AreWithin, HasStep};
ghost use Rattle.cfgcycles.specs.Inner.Components.{Reaches};
ghost use Rattle.cfgcycles.specs.Inner.Layers.{Finds, HaveLayers, IsPathTo, noted};
ghost use Rattle.cfgcycles.specs.StepPaths.{IsShortestOf};
ghost use Rattle.cfgcycles.specs.declared.shortest.Found.{Found};

use crate::step_paths::{Steps, UnitStep};
use std::alloc::{AllocError, Global};

/// A shortest path of steps from the rule to itself, or `None` if there is no such path.
///
/// # Errors
///
/// Out of memory.
pub fn shortest_cycle(
    alloc: Global,
    steps: &Steps,
    rule: usize,
) -> Result<Option<Vec<UnitStep>>, AllocError>
    requires rule { rule < length steps.now }
    requires within { AreWithin steps.now }
    ensures { IfOk result (λ found. IsShortestOf (HasStep steps.now) rule found) }
{
    let mut layers = Layers::new(alloc, steps)?;
    find_cycle(alloc, &mut layers, rule)
}

/// A shortest path of steps from the rule to itself, or `None` if there is no such path. Rules are found in layers,
/// each by the steps of the one before (Moore).
pub(crate) fn find_cycle(
    alloc: Global,
    layers: &mut Layers,
    rule: usize,
) -> Result<Option<Vec<UnitStep>>, AllocError>
    requires rule { rule < length layers.old.steps.now }
    requires within { AreWithin layers.old.steps.now }
    requires found { layers.old.found.items ≡ replicate (length layers.old.steps.now) None }
    ensures cycle { IfOk result (λ found. IsShortestOf (HasStep layers.old.steps.now) rule found) }
    ensures steps { OnOk result (layers.new.steps.now ≡ layers.old.steps.now) }
    ensures entries { OnOk result (length layers.new.found.items ≡ length layers.old.found.items) }
    ensures found { OnOk result ((other : ℕ) (found : Found) → noted layers.new.found.items other ≡ Some found
        → Reaches (HasStep layers.old.steps.now) rule other) }
{
    let mut layer = vec![in alloc; rule; 1]?;
    let mut count = 0;
    while !layer.is_empty() && !layers.is_found(rule) {
        count += 1;
        layer = layers.next(alloc, &layer, count)?;
    }
    layers.cycle_of(alloc, rule)
}

/// How a rule was found: a step of this rule leads to it, and ends a path of this many steps.
#[derive(Clone, Copy)]
pub(crate) struct Found {
    from: usize,
    step: UnitStep,
    length: usize,
}

/// Rules that are found by steps, in layers.
#[derive(Drop)]
pub(crate) struct Layers<'a> {
    pub(crate) steps: &'a Steps,
    pub(crate) found: Vec<Option<Found>>,
}

impl<'a> Layers<'a> {
    /// No rule has been found.
    pub(crate) fn new(alloc: Global, steps: &'a Steps) -> Result<Self, AllocError>
        ensures steps { IfOk result (λ x. x.steps.now ≡ steps.now) }
        ensures found { IfOk result (λ x. x.found.items ≡ replicate (length steps.now) None) }
    {
        Ok(Layers {
            steps,
            found: vec![in alloc; None; steps.len()]?,
        })
    }

    /// Forgets how these rules were found.
    pub(crate) fn clear(&mut self, rules: &[usize])
        requires { (rule : ℕ) → Contains rules.now rule → rule < length self.old.found.items }
        ensures steps { self.new.steps.now ≡ self.old.steps.now }
        ensures entries { length self.new.found.items ≡ length self.old.found.items }
        ensures found { (rule : ℕ) (found : Found) → noted self.new.found.items rule ≡ Some found
            → (noted self.old.found.items rule ≡ Some found) × (Contains rules.now rule → ⊥) }
    {
        for rule in rules {
            self.found[*rule] = None;
        }
    }

    /// Whether the rule has been found.
    fn is_found(&self, rule: usize) -> bool
        requires { rule < length self.now.found.items }
        ensures { result ≡ is_some (noted self.now.found.items rule) }
    {
        self.found[rule].is_some()
    }

    /// Finds the rules that steps of the layer lead to, by paths of this many steps. Returns those that weren't found
    /// before.
    fn next(
        &mut self,
        alloc: Global,
        layer: &[usize],
        count: usize,
    ) -> Result<Vec<usize>, AllocError>
        requires layer { (a : ℕ) → Contains layer.now a → a < length self.old.steps.now }
        requires within { AreWithin self.old.steps.now }
        requires shape { length self.old.found.items ≡ length self.old.steps.now }
        ensures steps { OnOk result (self.new.steps.now ≡ self.old.steps.now) }
        ensures found { IfOk result (λ next. Finds count (λ a step. Contains layer.now a
            × HasStep self.old.steps.now a step)
            self.old.found.items [] self.new.found.items next.items) }
    {
        let mut next = Vec::new(alloc);
        for from in layer {
            self.note_steps(*from, count, &mut next)?;
        }
        Ok(next)
    }

    /// Records each rule that a step of this rule leads to and that hasn't been found yet.
    fn note_steps(
        &mut self,
        from: usize,
        count: usize,
        next: &mut Vec<usize>,
    ) -> Result<(), AllocError>
        requires rule { from < length self.old.steps.now }
        requires within { AreWithin self.old.steps.now }
        requires shape { length self.old.found.items ≡ length self.old.steps.now }
        ensures steps { OnOk result (self.new.steps.now ≡ self.old.steps.now) }
        ensures found { OnOk result (Finds count (λ a step. (a ≡ from) × HasStep self.old.steps.now a step)
            self.old.found.items next.old.items self.new.found.items next.new.items) }
    {
        let steps = self.steps;
        for step in steps.of(from) {
            self.note(from, *step, count, next)?;
        }
        Ok(())
    }

    /// Records the rule that the step leads to, if it hasn't been found yet.
    fn note(
        &mut self,
        from: usize,
        step: UnitStep,
        count: usize,
        next: &mut Vec<usize>,
    ) -> Result<(), AllocError>
        requires { step.rule < length self.old.found.items }
        ensures steps { self.new.steps.now ≡ self.old.steps.now }
        ensures found { OnOk result (Finds count (λ a s. (a ≡ from) × (s ≡ step))
            self.old.found.items next.old.items self.new.found.items next.new.items) }
    {
        if self.found[step.rule].is_none() {
            next.push(step.rule)?;
            self.found[step.rule] = Some(Found {
                from,
                step,
                length: count,
            });
        }
        Ok(())
    }

    /// The path of steps by which the rule was found from itself, if it was.
    fn cycle_of(&self, alloc: Global, rule: usize) -> Result<Option<Vec<UnitStep>>, AllocError>
        requires rule { rule < length self.now.found.items }
        requires layers { HaveLayers (HasStep self.now.steps.now) rule self.now.found.items }
        ensures { IfOk result (λ found. MatchOption found (noted self.now.found.items rule ≡ None)
            (λ path. IsPathTo (HasStep self.now.steps.now) rule self.now.found.items rule path.items)) }
    {
        let Some(last) = self.found[rule] else {
            return Ok(None);
        };
        let mut path = Vec::with_capacity(alloc, last.length)?;
        let mut found = last;
        path.push(last.step)?;
        while found.length > 1 {
            let Some(before) = self.found[found.from] else {
                return Ok(None);
            };
            path.push(before.step)?;
            found = before;
        }
        path.reverse();
        Ok(Some(path))
    }
}
