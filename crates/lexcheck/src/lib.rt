//! Whether a lexer and a grammar agree on the names of tokens.
#![tactic(auto)]

pub mod laws;
pub mod report;

pub use report::{LexReport, check};
