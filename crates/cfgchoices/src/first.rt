//! The production that makes each rule's first minimal sentence, found by increasing cost.

mod by_cost;
mod candidates;
mod compare;
mod lists;
mod optimal;

pub use by_cost::first_choices;
