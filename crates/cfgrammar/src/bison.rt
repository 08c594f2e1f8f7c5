//! Yacc and Bison files, as POSIX `yacc` and Bison 3.8 read them.

mod fault;
mod file;
mod laws;

pub use bison_errors::{Error, ErrorKind};
pub use bison_reader::{Associativity, Expected};
pub use bison_words::WordFaultKind;
pub use fault::BisonFault;
pub use file::{BisonFile, read};
