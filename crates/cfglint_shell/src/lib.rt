//! The shell of the program `cfglint`: its arguments, the files that it visits, its summary, and how it ends.
#![tactic(auto)]

mod answer;
mod arguments;
mod color_choice;
mod file_kind;
mod files;
mod format;
mod kind_counts;
pub mod laws;
mod linter;
mod program;
mod read_fault;
mod runtime;
mod sarif_log;
mod summary;
mod tally;
mod unit;
mod usage;

pub use file_kind::{FileKind, KindRequest};
pub use format::Format;
pub use linter::{LintOptions, Linter, Report};
pub use program::lint;
pub use runtime::run_over;
