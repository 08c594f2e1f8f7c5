//! The reader of Yacc files: the grammar of what follows a file's section, and what is read of it.
#![tactic(auto)]

mod bodies;
mod declarations;
mod keywords;
mod laws;
mod lists;
mod read;
mod reader;
mod rules;

pub use laws::file_is_graph;
pub use read::read_file;
