//! The errors of a text.

use cfgrammar::render_all;
use cfgrammar::yacc::{YaccFault, YaccGrammar, YaccKind, YaccOriginalActionKind};
use std::alloc::{AllocError, Global};

/// The errors of a text as people read them, under its file's name; empty if it is the text of a grammar.
///
/// # Errors
///
/// Out of memory.
pub fn show_errors(alloc: Global, name: &str, text: &str) -> Result<String, AllocError> {
    let kind = YaccKind::Original(YaccOriginalActionKind::GenericParseTree);
    match YaccGrammar::<u32>::new(alloc, kind, text) {
        Ok(_) => Ok(String::new(alloc)),
        Err(YaccFault::OutOfMemory) => Err(AllocError),
        Err(YaccFault::Errors(errors)) => render_all(alloc, name, text, &errors),
    }
}
