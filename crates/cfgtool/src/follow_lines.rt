//! The lines that print FOLLOW sets.

ghost use Rattle.std.specs.Prelude.{◌≡◌, ◌<◌, length, IfOk, OnOk, string_bytes};
ghost use Rattle.cfgrammar.specs.Table.{bit};
ghost use Rattle.cfgrammar.specs.Accessors.{rule_part};
ghost use Rattle.cfgtool.specs.FollowLines.{follow_line, follow_lines};
ghost use Rattle.cfgtool.specs.TokenSets.{Adds};

use crate::token_sets::write_tokens;
use cfgrammar::RIdx;
use cfgrammar::yacc::YaccGrammar;
use cfgrammar::yacc::follows::YaccFollows;
use std::alloc::{AllocError, Global};

/// The FOLLOW sets of a grammar, a line for each rule: its name and a colon, the tokens in its set in double quotes,
/// and `%end` if the end token is among them.
pub fn follow_lines(
    alloc: Global,
    grammar: &YaccGrammar<u32>,
    follows: &YaccFollows<u32>,
) -> Result<String, AllocError>
    ensures { IfOk result (λ lines. string_bytes lines ≡ follow_lines grammar.now (bit follows.now)) }
{
    let mut lines = String::new(alloc);
    for ridx in grammar.iter_rules() {
        write_line(&mut lines, grammar, follows, ridx)?;
    }
    Ok(lines)
}

/// Writes the line of a rule.
fn write_line(
    lines: &mut String,
    grammar: &YaccGrammar<u32>,
    follows: &YaccFollows<u32>,
    ridx: RIdx<u32>,
) -> Result<(), AllocError>
    requires { ridx.0 < length grammar.now.rules }
    ensures { OnOk result (Adds (rule_part
        (λ rule. follow_line grammar.now (bit follows.now) (ridx.0, rule)) grammar.now ridx.0)
        (string_bytes lines.old) (string_bytes lines.new)) }
{
    lines.push_str(grammar.rule_name_str(ridx))?;
    lines.push_str(":")?;
    write_tokens(lines, grammar, follows, ridx, " %end")?;
    lines.push_str("\n")
}
