//! The least and the greatest costs of a grammar's sentences.
#![tactic(auto)]

pub mod errors;
pub mod generator;
pub mod laws;
mod minimal;
mod opener;
mod over;
mod sentence;
mod targets;

pub use derivation::CostError;
pub use errors::SentenceError;
pub use generator::SentenceGenerator;
pub use over::min_sentence_over;
