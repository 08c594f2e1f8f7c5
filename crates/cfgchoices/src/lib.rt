//! The kinds of productions by the least costs of their rules, and the production that makes each rule's first minimal
//! sentence.
#![tactic(auto)]

pub mod first;
pub mod kinds;
