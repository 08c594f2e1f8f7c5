//! Indices of rules, productions, symbols and tokens, the numbers that store them, lists of bits, and tables of lists.
#![tactic(auto)]

pub mod idxnewtype;
pub mod laws;
pub mod list_table;
pub mod storage;
pub mod vob;

pub use idxnewtype::{PIdx, RIdx, SIdx, Symbol, TIdx};
pub use list_table::ListTable;
pub use storage::{Storage, to_storage};
pub use vob::{IterSetBits, Vob};
