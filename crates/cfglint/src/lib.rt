//! The program `cfglint` as a library: what is reported of a text, and a run of the program.
#![tactic(auto)]

mod allowed;
mod bison;
mod bison_notes;
mod error_words;
mod file_levels;
mod file_reporter;
pub mod linter;
mod messages;
mod open_rule;
pub mod program;
mod reading;
mod reported;
mod reported_bison;
mod reported_error;
mod severities;
mod shown;
mod signs;
mod suggestion;
pub mod system;
mod yacc;
mod yacc_errors;

pub use cfgfindings::{Finding, FindingKind, findings};
pub use cfglint_shell::laws;
pub use cfgprogram::{Ended, Input, KindArg, ReadError, Source, SourceWithReasons};
pub use cfgsink::{Counted, Sink, SinkFault, SinkWithReasons, WriteError};
pub use program::lint;
pub use system::run_over;
