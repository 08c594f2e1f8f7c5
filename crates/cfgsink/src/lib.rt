//! What a program writes to: sinks that count their faults, and how a report that is written to one ends.
#![tactic(auto)]

pub mod laws;
pub mod outcome;
pub mod sink;

pub use outcome::{Outcome, ReportFault, write_report};
pub use sink::{Counted, Sink, SinkFault, SinkWithReasons, WriteError, write_whole};
