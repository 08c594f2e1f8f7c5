//! Steps as the edges of a graph.

ghost use Rattle.std.specs.Prelude.{◌≡◌, ℕ, ◌<◌, List, length, OnOk};

use crate::step_paths::Steps;
use search::{Bits, Edges, Search};
use std::alloc::AllocError;
use std::marker::Model;

/// Rules, each of which leads to those that its steps lead to.
#[derive(Drop)]
pub(crate) struct StepEdges<'a> {
    pub(crate) steps: &'a Steps,
}

impl<'a> Model for StepEdges<'a> {
    ghost use Rattle.std.specs.Prelude.{List};
    ghost use Rattle.cfgcycles.specs.declared.step_paths.UnitStep.{UnitStep};
    ghost use Rattle.cfgcycles.specs.StepLists.{AreWithin};

    ghost Value = { List (List UnitStep) };

    ghost view = { λ x. x.steps.now };

    ghost invariant = { λ x. AreWithin x.steps.now };
}

impl<'a> Edges<Bits> for StepEdges<'a> {
    ghost use Rattle.std.specs.Prelude.{length};
    ghost use Rattle.cfgcycles.specs.Inner.Components.{StepsTo};

    ghost nodes = { λ steps. length steps };

    ghost leads = { StepsTo };

    fn reach_from(&self, node: usize, search: &mut Search) -> Result<(), AllocError> {
        for step in self.steps.of(node) {
            search.reach(step.rule)?;
        }
        Ok(())
    }
}
