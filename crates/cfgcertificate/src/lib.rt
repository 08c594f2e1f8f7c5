//! Checks of least costs: a table that passes both is true, wherever it comes from.
#![tactic(auto)]

pub mod certificate;

pub use certificate::{check_least, check_reached};
