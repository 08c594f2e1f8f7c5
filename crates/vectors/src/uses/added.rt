//! A rule that is written by hand.

use cfgrammar::Span;
use cfgrammar::yacc::ast::{GrammarAST, Symbol};
use std::alloc::{AllocError, Global};

/// Adds the rule `Program: NAME;` to a tree.
///
/// # Errors
///
/// Out of memory. The tree may have the rule without its production.
pub fn add_program(alloc: Global, ast: &mut GrammarAST, name: &str) -> Result<(), AllocError> {
    let nowhere = Span::new(0, 0);
    let mut symbols = Vec::new(alloc);
    symbols.push(Symbol::Rule(String::from_str(alloc, name)?, nowhere))?;
    let program = String::from_str(alloc, "Program")?;
    ast.add_rule((program.clone()?, nowhere), None)?;
    ast.add_prod(program, symbols, None, None, nowhere)
}
