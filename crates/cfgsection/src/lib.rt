//! The `%grmtools` section of a file: its reader, and the kind of Yacc that it names.
#![tactic(auto)]

pub mod named;
pub mod section;

pub use section::{Entry, HeaderFault, entry_at, entry_of, section_entries};
