//! FIRST sets: the tokens that rules begin with, and the rules that are nullable.

pub use cfganalysis::{YaccFirsts, firsts_over};
