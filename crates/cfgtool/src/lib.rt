//! The program `cfgtool`, as a library: prints what is in a grammar, or the errors of its text, as lines.
#![tactic(auto)]

pub mod arguments;
pub mod engine;
mod faults;
mod first_lines;
mod follow_lines;
pub mod laws;
mod lexer_lines;
mod lines;
pub mod program;
mod sentence_lines;
pub mod system;
mod token_sets;

pub use arguments::Command;
pub use cfgprogram::{Ended, Input, KindArg, Source, kinds, source};
pub use cfgsink::{Counted, Outcome, ReportFault, Sink, SinkFault, sink};
pub use engine::{report, report_lex};
pub use program::run;
pub use system::run_over;
