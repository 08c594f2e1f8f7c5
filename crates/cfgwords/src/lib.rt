//! Blanks and words of a grammar file.
#![tactic(auto)]

pub mod actions;
pub mod blank;
pub mod bytes;
pub mod colon_text;
pub mod fault;
pub mod laws;
pub mod passed;
pub mod run;
pub mod section;
pub mod strings;
pub mod words;
