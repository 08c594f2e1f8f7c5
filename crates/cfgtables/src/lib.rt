//! What is read of a grammar: its tables, and its productions, which are opened one by one and counted.
#![tactic(auto)]

pub mod counted;
pub mod productions;

pub use counted::{CountedTables, Tables};
pub use productions::Productions;
