//! Lines and columns of a text that is fed in pieces or all at once.
#![tactic(auto)]

pub mod newlinecache;
pub mod positions;

pub use newlinecache::{FeedError, NewlineCache};
pub use positions::Positions;
