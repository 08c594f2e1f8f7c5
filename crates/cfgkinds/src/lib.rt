//! Kinds of Yacc, and the values of a `%grmtools` section, which name them.
#![tactic(auto)]

pub mod fault;
pub mod kind;
mod kinds;
pub mod laws;
mod locations;
mod same;
pub mod value;

pub use fault::KindFault;
pub use kind::{YaccKind, YaccOriginalActionKind};
pub use kinds::KIND_NAMESPACE;
pub use value::{HeaderValue, Namespaced, Setting, Value};
