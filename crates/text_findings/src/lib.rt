//! Findings, how they are reported number by number, and those that the text or the tree alone decides.
#![tactic(auto)]

mod empty;
mod escapes;
mod file;
pub mod finding;
mod glued;
mod keys;
mod named;
mod precedences;
mod references;
pub mod reporter;
mod swallowed;
mod values;
mod words;

pub use empty::push_implicitly_empty;
pub use escapes::push_escaped;
pub use file::push_file_findings;
pub use finding::{Finding, FindingKind};
pub use glued::push_glued;
pub use named::symbol_name;
pub use precedences::has_precedence;
pub use references::after_blanks;
pub use reporter::{Reporter, push_reported};
pub use words::Words;
