//! Errors and warnings as people read them: where they are, what they say, and the line of the text with carets.
#![tactic(auto)]

pub mod column_unit;
mod excerpt;
pub mod laws;
pub mod message;
pub mod source;
mod visible;
mod window;

pub use column_unit::ColumnUnit;
pub use message::{render, render_all};
pub use source::Source;
pub use visible::Visible;
