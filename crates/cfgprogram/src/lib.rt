//! What the programs share: the kind that an argument names, what they read from, the way from a text to its grammar,
//! and how they end.
#![tactic(auto)]

pub mod arguments;
pub mod driver;
pub mod ending;
pub mod kinds;
pub mod laws;
pub mod runtime;
pub mod source;

pub use ending::Ended;
pub use kinds::KindArg;
pub use source::{Input, ReadError, Source, SourceWithReasons};
