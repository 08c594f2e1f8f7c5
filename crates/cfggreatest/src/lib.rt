//! The greatest costs of sentences.
#![tactic(auto)]

pub mod greatest;
pub mod laws;
mod rule_edges;
mod sums;

pub use greatest::greatest_costs;
