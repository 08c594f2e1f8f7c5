//! The states of an LR parser.

use cfgrammar::yacc::YaccGrammar;
use lr_states::{Item, States};
use std::alloc::{AllocError, Global};

/// Adds the states of an LR parser: a line for each, with its items. An item is the number of a production, and of how
/// many of its symbols are read, as `2.1`.
pub fn print_states(
    alloc: Global,
    lines: &mut String,
    grammar: &YaccGrammar<u32>,
) -> Result<(), AllocError> {
    let states = States::of(alloc, grammar)?;
    for number in 0..states.len() {
        write!(lines, "state {number}:")?;
        write_items(lines, states.items(number))?;
    }
    Ok(())
}

fn write_items(lines: &mut String, items: &[Item]) -> Result<(), AllocError> {
    for item in items {
        write!(lines, " {}.{}", item.production, item.read)?;
    }
    lines.push_str("\n")
}
