//! The foundations of a reader of texts.
#![tactic(auto)]

mod text;

pub use text::{after_word, split_at_first};
