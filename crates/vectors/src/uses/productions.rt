//! The productions of a grammar.

use cfgrammar::yacc::YaccGrammar;
use std::alloc::{AllocError, Global};

/// The productions of a grammar, one per line.
///
/// # Errors
///
/// Out of memory.
pub fn print_productions(alloc: Global, grammar: &YaccGrammar<u32>) -> Result<String, AllocError> {
    let mut lines = String::new(alloc);
    for pidx in grammar.iter_pidxs() {
        writeln!(lines, "{}", grammar.pp_prod(alloc, pidx)?)?;
    }
    Ok(lines)
}
