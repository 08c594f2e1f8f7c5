//! FOLLOW sets: the tokens that come right after rules.

pub use cfganalysis::{YaccFollows, follows_over};
