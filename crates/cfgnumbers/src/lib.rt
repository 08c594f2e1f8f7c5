//! The numbering of a syntax that passed validation: the rows of its grammar's tables, and whether an index type can
//! count them.
#![tactic(auto)]

pub mod laws;
mod lists;
mod names;
pub mod numbering;
mod production_rows;
pub mod rows;

pub use names::tokens_by_name;
pub use numbering::Numbering;
pub use production_rows::ProductionRows;
pub use rows::{ProductionRow, RuleRow, TokenRow};
