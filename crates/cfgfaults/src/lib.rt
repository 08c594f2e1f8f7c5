//! The errors for what stops a reading or a change: a fault of a file, the errors of a section, a name that is declared
//! more than once, a grammar that is too large, a start that is not a rule; and what named the kind that a text is read
//! as.
#![tactic(auto)]

mod errors;
pub mod laws;
mod source;
mod start;

pub use errors::{error_of, fault_of, repeated_kind, section_errors, storage_too_small};
pub use source::KindSource;
pub use start::{ASTModificationError, StartFault, invalid_start};
