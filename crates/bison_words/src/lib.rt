//! The words of a Yacc or Bison file, as Bison 3.8 reads them.
#![tactic(auto)]

mod blanks;
mod bodies;
mod brackets;
pub mod class;
mod code;
mod directive;
mod laws;
mod names;
mod nesting;
mod quotes;
mod runs;
mod scanner;
mod text;
mod words;

pub use directive::Directive;
pub use laws::text_words_is_graph;
pub use text::read_words;
pub use words::{Code, Lexeme, Word, WordFault, WordFaultKind, Words};
