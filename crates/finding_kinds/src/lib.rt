//! The kinds of findings, the words that name them, and the level of each kind.
#![tactic(auto)]

mod finding_kind;
pub mod laws;
mod levels;

pub use finding_kind::FindingKind;
pub use levels::{Level, Levels};
