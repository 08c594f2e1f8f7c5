//! Spans of a text, where a value was given, and what the spans of an error or a warning mean.
#![tactic(auto)]

pub mod laws;
pub mod span;

pub use span::{Location, Span, Spanned, SpansKind};
