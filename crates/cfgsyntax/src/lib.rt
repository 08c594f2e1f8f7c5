//! Yacc grammars as written: the text of a Yacc file, its syntax, and its errors.
#![tactic(auto)]

mod read;
pub mod yacc;
