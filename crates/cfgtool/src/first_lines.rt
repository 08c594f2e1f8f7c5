//! The lines that print FIRST sets.

ghost use Rattle.std.specs.Prelude.{◌≡◌, ◌<◌, length, IfOk, OnOk, string_bytes};
ghost use Rattle.cfgrammar.specs.Firsts.{nullable_bit};
ghost use Rattle.cfgrammar.specs.Table.{bit};
ghost use Rattle.cfgrammar.specs.Accessors.{rule_part};
ghost use Rattle.cfgtool.specs.FirstLines.{empty_word, first_line, first_lines};
ghost use Rattle.cfgtool.specs.TokenSets.{Adds};

use crate::token_sets::write_tokens;
use cfgrammar::RIdx;
use cfgrammar::yacc::YaccGrammar;
use cfgrammar::yacc::firsts::YaccFirsts;
use std::alloc::{AllocError, Global};

/// The FIRST sets of a grammar, a line for each rule: its name and a colon, the tokens in its set in double quotes, and
/// `%empty` if it is nullable.
pub fn first_lines(
    alloc: Global,
    grammar: &YaccGrammar<u32>,
    firsts: &YaccFirsts<u32>,
) -> Result<String, AllocError>
    ensures { IfOk result (λ lines. string_bytes lines
        ≡ first_lines grammar.now (bit firsts.now.firsts) (nullable_bit firsts.now)) }
{
    let mut lines = String::new(alloc);
    for ridx in grammar.iter_rules() {
        write_line(&mut lines, grammar, firsts, ridx)?;
    }
    Ok(lines)
}

/// Writes the line of a rule.
fn write_line(
    lines: &mut String,
    grammar: &YaccGrammar<u32>,
    firsts: &YaccFirsts<u32>,
    ridx: RIdx<u32>,
) -> Result<(), AllocError>
    requires { ridx.0 < length grammar.now.rules }
    ensures { OnOk result (Adds (rule_part
        (λ rule. first_line grammar.now (bit firsts.now.firsts) (nullable_bit firsts.now)
        (ridx.0, rule)) grammar.now ridx.0)
        (string_bytes lines.old) (string_bytes lines.new)) }
{
    lines.push_str(grammar.rule_name_str(ridx))?;
    lines.push_str(":")?;
    write_tokens(lines, grammar, firsts, ridx, "")?;
    lines.push_str(if_empty(firsts.is_epsilon_set(ridx)))?;
    lines.push_str("\n")
}

/// What is written for a nullable rule, and for any other.
fn if_empty(empty: bool) -> &'static str
    ensures { result.now ≡ empty_word empty }
{
    if empty { " %empty" } else { "" }
}
