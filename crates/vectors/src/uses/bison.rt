//! The grammar of a Yacc or Bison file.

use super::productions::print_productions;
use cfgrammar::bison::{BisonFault, BisonFile};
use std::alloc::{AllocError, Global};

/// The productions of a Yacc or Bison file, one per line, or what is wrong with the file.
///
/// # Errors
///
/// Out of memory.
pub fn print_bison(alloc: Global, file: &BisonFile) -> Result<String, AllocError> {
    match file.grammar::<u32>(alloc) {
        Ok(grammar) => print_productions(alloc, &grammar),
        Err(BisonFault::OutOfMemory) => Err(AllocError),
        Err(fault) => format!(in alloc; "{fault}\n"),
    }
}
