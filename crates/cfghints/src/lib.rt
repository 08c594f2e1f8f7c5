//! Notes that help to mend an error in a Yacc file: what was found where the error is, and what may be there.
#![tactic(auto)]

mod found;
pub mod hint;

pub use hint::{Hint, hint_for};
