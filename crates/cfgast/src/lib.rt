//! The tree `GrammarAST`, which holds a syntax: its accessors, how it is changed, and what it warns of.
#![tactic(auto)]

pub mod ast;
pub mod duplicates;
pub mod unused;
pub mod writing;

pub use ast::{GrammarAST, tree_of, tree_with};
pub use writing::clone_with_start;
