//! The rules that a grammar's start rule leads to: a work list that grows while it is read.

ghost use Rattle.std.specs.Prelude.{◌<◌, length};

use cfgrammar::yacc::YaccGrammar;
use cfgrammar::{RIdx, Symbol};
use std::alloc::{AllocError, Global};

/// The names of the rules that the start rule leads to, one per line, in the order in which they are found.
///
/// # Errors
///
/// Out of memory.
pub fn print_reachable(alloc: Global, grammar: &YaccGrammar<u32>) -> Result<String, AllocError> {
    let mut lines = String::new(alloc);
    let mut found = Vec::new(alloc);
    found.push(grammar.start_rule_idx())?;
    for turn in 0..grammar.rules_len().0 as usize {
        let Some(rule) = found.get(turn).copied() else {
            break;
        };
        if rule < grammar.rules_len() {
            writeln!(lines, "{}", grammar.rule_name_str(rule))?;
            add_rules(grammar, rule, &mut found)?;
        }
    }
    Ok(lines)
}

/// Adds the rules in a rule's productions that aren't in the list.
fn add_rules(
    grammar: &YaccGrammar<u32>,
    rule: RIdx<u32>,
    found: &mut Vec<RIdx<u32>>,
) -> Result<(), AllocError>
    requires { rule.0 < length grammar.now.rules }
{
    for pidx in grammar.rule_to_prods(rule) {
        for symbol in grammar.prod(*pidx) {
            match *symbol {
                Symbol::Rule(next) if !found.contains(&next) => found.push(next)?,
                _ => {}
            }
        }
    }
    Ok(())
}
