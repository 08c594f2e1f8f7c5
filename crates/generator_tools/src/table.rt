//! The table of an LL(1) parser.

ghost use Rattle.std.specs.Prelude.{◌<◌, length};
ghost use Rattle.cfgrammar.specs.Firsts.{AreFirsts};
ghost use Rattle.cfgrammar.specs.Follows.{AreFollows};
ghost use Rattle.cfgrammar.specs.Numbered.{core};

use crate::ll1::{Decision, decide};
use cfgrammar::RIdx;
use cfgrammar::yacc::YaccGrammar;
use cfgrammar::yacc::firsts::YaccFirsts;
use cfgrammar::yacc::follows::YaccFollows;
use std::alloc::{AllocError, Global};

/// Adds the table of an LL(1) parser: a line for each rule and each token at which the parser uses a production of the
/// rule. It has the number of that production, or those of two, if the grammar isn't LL(1).
///
/// # Errors
///
/// Out of memory.
pub fn print_table(
    alloc: Global,
    lines: &mut String,
    grammar: &YaccGrammar<u32>,
) -> Result<(), AllocError> {
    let firsts = grammar.firsts(alloc)?;
    let follows = grammar.follows(alloc)?;
    write_rows(lines, grammar, &firsts, &follows)
}

fn write_rows(
    lines: &mut String,
    grammar: &YaccGrammar<u32>,
    firsts: &YaccFirsts<u32>,
    follows: &YaccFollows<u32>,
) -> Result<(), AllocError>
    requires firsts { AreFirsts (core grammar.now) firsts.now }
    requires follows { AreFollows (core grammar.now) follows.now }
{
    for rule in grammar.iter_rules() {
        write_row(lines, grammar, firsts, follows, rule)?;
    }
    Ok(())
}

fn write_row(
    lines: &mut String,
    grammar: &YaccGrammar<u32>,
    firsts: &YaccFirsts<u32>,
    follows: &YaccFollows<u32>,
    rule: RIdx<u32>,
) -> Result<(), AllocError>
    requires firsts { AreFirsts (core grammar.now) firsts.now }
    requires follows { AreFollows (core grammar.now) follows.now }
    requires rule { rule.0 < length grammar.now.rules }
{
    let name = grammar.rule_name_str(rule);
    for token in grammar.iter_tidxs() {
        let next = grammar.token_epp(token).unwrap_or("%end");
        match decide(grammar, firsts, follows, rule, token) {
            Decision::NoProduction => {}
            Decision::Production(pidx) => writeln!(lines, "{name} at {next}: {}", pidx.0)?,
            Decision::Conflict(pidx, other) => {
                writeln!(
                    lines,
                    "{name} at {next}: conflict of {} and {}",
                    pidx.0, other.0
                )?
            }
        }
    }
    Ok(())
}
