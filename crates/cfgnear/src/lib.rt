//! Which of some names an unknown name is probably meant to be.
#![tactic(auto)]

pub mod names;

pub use names::nearest;
