//! The lines that list differences between the names that a lexer has and a grammar's tokens.

ghost use Rattle.std.specs.Prelude.{◌≡◌, ◌++◌, ◌<◌, All, length, map, IfOk, OnOk, string_bytes};
ghost use Rattle.std.specs.List.{flat_map};
ghost use Rattle.cfgtool.specs.LexerLines.{lexer_lines, missing_line_of, names_in, unknown_line_at};

use cfgrammar::TIdx;
use cfgrammar::yacc::YaccGrammar;
use lexcheck::check;
use std::alloc::{AllocError, Global};

/// A line for each name in the list that no token has, and one for each token whose name isn't in the list.
pub fn lexer_lines(
    alloc: Global,
    grammar: &YaccGrammar<u32>,
    list: &str,
) -> Result<String, AllocError>
    ensures { IfOk result (λ lines. string_bytes lines ≡ lexer_lines grammar.now (names_in list.now)) }
{
    let names = names_in(alloc, list)?;
    let report = check(alloc, grammar, &names)?;
    let mut lines = String::new(alloc);
    write_unknown(&mut lines, &names, &report.unknown)?;
    write_missing(&mut lines, grammar, &report.missing)?;
    Ok(lines)
}

/// The names in a list: its nonempty lines.
fn names_in(alloc: Global, list: &str) -> Result<Vec<&str>, AllocError>
    ensures { IfOk result (λ names. map (λ name. name.now) names.items ≡ names_in list.now) }
{
    list.lines().filter(|line| !line.is_empty()).collect(alloc)
}

/// Writes a line for each of the names at these indices.
fn write_unknown(lines: &mut String, names: &[&str], positions: &[usize]) -> Result<(), AllocError>
    requires { All (λ position. position < length names.now) positions.now }
    ensures { OnOk result (string_bytes lines.new
        ≡ string_bytes lines.old ++ flat_map (unknown_line_at (map (λ name. name.now) names.now)) positions.now) }
{
    for position in positions {
        let name = names[*position];
        writeln!(lines, "unknown \"{name}\"")?;
    }
    Ok(())
}

/// Writes a line for each of the tokens.
fn write_missing(
    lines: &mut String,
    grammar: &YaccGrammar<u32>,
    tokens: &[TIdx<u32>],
) -> Result<(), AllocError>
    requires { All (λ t. t.0 < length grammar.now.tokens) tokens.now }
    ensures { OnOk result (string_bytes lines.new
        ≡ string_bytes lines.old ++ flat_map (λ t. missing_line_of grammar.now t.0) tokens.now) }
{
    for tidx in tokens {
        write_token(lines, grammar, *tidx)?;
    }
    Ok(())
}

/// Writes the line of a token, if it has a name.
fn write_token(
    lines: &mut String,
    grammar: &YaccGrammar<u32>,
    tidx: TIdx<u32>,
) -> Result<(), AllocError>
    requires { tidx.0 < length grammar.now.tokens }
    ensures { OnOk result (string_bytes lines.new ≡ string_bytes lines.old ++ missing_line_of grammar.now tidx.0) }
{
    match grammar.token_name(tidx) {
        Some(name) => writeln!(lines, "missing \"{name}\""),
        None => Ok(()),
    }
}
