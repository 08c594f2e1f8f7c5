//! Analyses of grammars: FIRST and FOLLOW sets, productive rules, and paths from rule to rule.
#![tactic(auto)]

pub mod bits;
pub mod firsts;
pub mod follows;
pub mod paths;
mod productive;
mod visits;

pub use bits::BitTable;
pub use cfgtables::{CountedTables, Productions, Tables};
pub use firsts::{YaccFirsts, firsts_over};
pub use follows::{YaccFollows, follows_over};
pub use paths::{has_path, reach_referred, reach_symbols};
pub use productive::{are_productive, productive_rules};
