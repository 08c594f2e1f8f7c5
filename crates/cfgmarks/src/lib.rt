//! Maps whose keys have marks.
#![tactic(auto)]

pub mod laws;
pub mod markmap;
