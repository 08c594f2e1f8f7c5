//! What cycles of unit steps say of derivations; groups of cyclic rules; and what `clone` of steps copies. That is
//! derived, so the law names the impl, as in `⟦<UnitStep as Clone>⟧`.

ghost use Rattle.std.specs.Prelude.{◌≡◌, ◌↔◌, ℕ, List, Option, length};
ghost use Rattle.derivation.specs.Grammar.{Grammar, HasProduction};
ghost use Rattle.derivation.specs.UnitPaths.{DerivesRule, IsCyclic};
ghost use Rattle.cfgcycles.specs.CyclicGroups.{AreGroups, IsInOneGroup, LeadsTo, OnCommonCycle};
ghost use Rattle.cfgcycles.specs.StepLists.{HasStep};
ghost use Rattle.cfgcycles.specs.StepPaths.{IsCycle};
ghost use Rattle.cfgcycles.specs.UnitSteps.{IsStep};
ghost use Rattle.cfgcycles.specs.declared.groups.CyclicGroup.{CyclicGroup};
ghost use Rattle.cfgcycles.specs.declared.step_paths.UnitStep.{UnitStep};

use crate::step_paths::UnitStep;

/// One or more unit steps lead from a rule to another exactly if, in one or more steps, it derives the list of only
/// that rule.
pub fn unit_steps_are_derivations()
    ensures { (g : Grammar) (a b : ℕ) → LeadsTo (IsStep g) a b ↔ DerivesRule (HasProduction g) a b }
{}

/// A rule has a cycle of unit steps exactly if it is cyclic.
pub fn cycles_are_derivations()
    ensures { (g : Grammar) (r : ℕ)
        → IsCyclic (HasProduction g) r ↔ ((path : List UnitStep) × IsCycle (IsStep g) r path) }
{}

/// Each cyclic rule is in exactly one group.
pub fn cyclic_rules_are_in_one_group()
    ensures { (steps : List (List UnitStep)) (groups : List (Option CyclicGroup)) (rule : ℕ)
        → AreGroups (HasStep steps) (length steps) groups → OnCommonCycle (HasStep steps) rule rule
        → IsInOneGroup groups rule }
{}

/// A clone of a step equals its source, and allocates nothing.
pub fn steps_are_copied()
    ensures clone { (a b : UnitStep) → ⟦<UnitStep as Clone>⟧.is_clone a b → b ≡ a }
    ensures cloned { (a : UnitStep) → ⟦<UnitStep as Clone>⟧.is_infallible a }
{}
