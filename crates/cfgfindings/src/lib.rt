//! The findings about the grammar of a file.
#![tactic(auto)]

mod added;
mod cyclic_rules;
mod declarations;
mod found;
mod marks;
mod names;
mod needless;
mod precedences;
mod repeats;
mod sentences;
mod sink_groups;
mod unproductive_rules;
mod unused;
mod useless;

pub use found::findings;
pub use text_findings::{Finding, FindingKind};
