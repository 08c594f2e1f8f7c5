//! The grammar of a Yacc file: read from its text, validated, and turned into numbered tables.
#![tactic(auto)]

pub mod grammar;
pub mod laws;
mod numbered;

pub use grammar::YaccGrammar;
pub use numbered::numbered_if_fits;
