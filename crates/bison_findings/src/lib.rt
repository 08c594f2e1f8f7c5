//! Findings that `bison` has too: conflicts, with the states of a grammar's parser as text, for reading one by hand;
//! and those that the words of a Bison file alone decide.
#![tactic(auto)]

mod aliases;
mod commas;
mod conflicts;
mod defines;
mod examples;
mod expectations;
mod found;
mod grouped;
mod states;
mod symbols;
mod texts;

pub use conflicts::push_conflicts;
pub use found::push_bison_findings;
pub use states::states_text;
