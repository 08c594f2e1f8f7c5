//! Cyclic rules, and the paths of unit steps that show it.
#![tactic(auto)]

mod groups;
pub mod laws;
mod shortest;
mod step_edges;
pub mod step_paths;
mod stepping;

pub use groups::{CyclicGroup, cyclic_groups};
pub use shortest::shortest_cycle;
pub use step_paths::{Steps, UnitStep};
pub use stepping::unit_steps;
