//! The nullable rules, and a caller's own theorem.

ghost use Rattle.cfgrammar.specs.First.{Nullable};
ghost use Rattle.cfgrammar.specs.Grammar.{HasProduction};
ghost use Rattle.cfgrammar.specs.Numbered.{core};
ghost use Rattle.std.specs.Prelude.{◌<◌, ◌↔◌, IfOk, IsTrue, length};

use cfgrammar::RIdx;
use cfgrammar::yacc::YaccGrammar;
use std::alloc::{AllocError, Global};

/// Whether the rule is nullable.
///
/// # Errors
///
/// Out of memory.
pub fn is_nullable(
    alloc: Global,
    grammar: &YaccGrammar<u32>,
    rule: RIdx<u32>,
) -> Result<bool, AllocError>
    requires { rule.0 < length grammar.now.rules }
    ensures { IfOk result (λ nullable. IsTrue nullable ↔ Nullable (HasProduction (core grammar.now)) rule.0) }
{
    let firsts = grammar.firsts(alloc)?;
    Ok(firsts.is_epsilon_set(rule))
}

/// The names of the nullable rules, one per line.
///
/// # Errors
///
/// Out of memory.
pub fn print_nullable(alloc: Global, grammar: &YaccGrammar<u32>) -> Result<String, AllocError> {
    let mut lines = String::new(alloc);
    for rule in grammar.iter_rules() {
        if is_nullable(alloc, grammar, rule)? {
            writeln!(lines, "{}", grammar.rule_name_str(rule))?;
        }
    }
    Ok(lines)
}
