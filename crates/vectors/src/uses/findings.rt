//! The findings about a grammar.

use cfgfindings::findings;
use cfgrammar::render_all;
use cfgrammar::yacc::YaccGrammar;
use cfgrammar::yacc::ast::GrammarAST;
use std::alloc::{AllocError, Global};

/// The findings about the grammar of a text, given its tree and its numbers, as people read them; empty if there are
/// none.
///
/// # Errors
///
/// Out of memory.
pub fn show_findings(
    alloc: Global,
    name: &str,
    text: &str,
    (ast, grammar): (&GrammarAST, &YaccGrammar<u32>),
) -> Result<String, AllocError> {
    render_all(
        alloc,
        name,
        text,
        &findings(alloc, text, ast, grammar, &[])?,
    )
}
