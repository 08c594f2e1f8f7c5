//! Cyclic rules, their groups, and shortest cycles.

pub use cfgcycles::{CyclicGroup, Steps, UnitStep, cyclic_groups, shortest_cycle, unit_steps};
