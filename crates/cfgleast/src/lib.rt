//! The least costs of a grammar's sentences: for each rule its cost, and a production that shows it.
#![tactic(auto)]

pub mod partial;
pub mod queue;
pub mod settle;
pub mod walk;
