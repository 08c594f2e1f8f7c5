//! Validation of a tree: whether what it names exists. The first check that it fails, or every one.
#![tactic(auto)]

mod every_check;
mod validation;

pub use every_check::every_error;
pub use validation::{ValidationError, check, has_rule};
