//! The reading of a text as a Yacc or Bison file: its tree, and what is wrong with its text and with its names.
#![tactic(auto)]

mod error;
mod error_spans;
mod error_texts;
mod error_words;
mod name_errors;
mod reading;
mod text_errors;

pub use error::{Error, ErrorKind};
pub use reading::{FileTree, read};
