//! The lines of a report.

ghost use Rattle.std.specs.Prelude.{◌≡◌, ◌++◌, ◌<◌, All, length, IfOk, OnOk, string_bytes};
ghost use Rattle.cfgrammar.specs.TextSpans.{IsPiece};
ghost use Rattle.cfgrammar.specs.Accessors.{production_part};
ghost use Rattle.cfgrammar.specs.ErrorSpans.{EachErrorSpan};
ghost use Rattle.cfgtool.specs.ReportLines.{EachWarningSpan, error_line, error_lines, first_position, production_line};
ghost use Rattle.cfgtool.specs.ReportLines.{production_lines, warning_line, warning_lines};
ghost use Rattle.cfgtool.specs.TokenSets.{Adds};

use cfgrammar::yacc::{YaccGrammar, YaccGrammarError, YaccGrammarWarning};
use cfgrammar::{PIdx, Positions, Span, Spanned};
use itoa::Buffer;
use std::alloc::{AllocError, Global};

/// How many bytes of room a production's line gets at first. Most lines have fewer.
const LINE_ROOM: usize = 48;

/// The productions of a grammar, each as a line: its index, a space and its text.
pub fn production_lines(alloc: Global, grammar: &YaccGrammar<u32>) -> Result<String, AllocError>
    ensures { IfOk result (λ lines. string_bytes lines ≡ production_lines grammar.now) }
{
    let room = usize::from(grammar.prods_len()).saturating_mul(LINE_ROOM);
    let mut lines = String::with_capacity(alloc, room)?;
    for pidx in grammar.iter_pidxs() {
        write_production(&mut lines, grammar, pidx)?;
    }
    Ok(lines)
}

/// Writes the line of a production.
fn write_production(
    lines: &mut String,
    grammar: &YaccGrammar<u32>,
    pidx: PIdx<u32>,
) -> Result<(), AllocError>
    requires { pidx.0 < length grammar.now.productions }
    ensures { OnOk result (Adds (production_part
        (λ production. production_line grammar.now (pidx.0, production)) grammar.now pidx.0)
        (string_bytes lines.old) (string_bytes lines.new)) }
{
    let mut digits = Buffer::new();
    lines.push_str(digits.format(usize::from(pidx)))?;
    lines.push_str(" ")?;
    grammar.push_prod(lines, pidx)?;
    lines.push_str("\n")
}

/// The errors of a text, each as a line: its position and its text.
pub fn error_lines(
    alloc: Global,
    text: &str,
    errors: &[YaccGrammarError],
) -> Result<String, AllocError>
    requires { All (EachErrorSpan (IsPiece text.now)) errors.now }
    ensures { IfOk result (λ lines. string_bytes lines ≡ error_lines text.now errors.now) }
{
    let positions = Positions::new(alloc, text)?;
    let mut lines = String::new(alloc);
    for error in errors {
        write_error(&mut lines, &positions, error)?;
    }
    Ok(lines)
}

/// The warnings of a text, each as a line: its position and its text.
pub fn warning_lines(
    alloc: Global,
    text: &str,
    warnings: &[YaccGrammarWarning],
) -> Result<String, AllocError>
    requires { All (EachWarningSpan (IsPiece text.now)) warnings.now }
    ensures { IfOk result (λ lines. string_bytes lines ≡ warning_lines text.now warnings.now) }
{
    if warnings.is_empty() {
        return Ok(String::new(alloc));
    }
    let positions = Positions::new(alloc, text)?;
    let mut lines = String::new(alloc);
    for warning in warnings {
        write_warning(&mut lines, &positions, warning)?;
    }
    Ok(lines)
}

/// Writes the line of an error.
fn write_error(
    lines: &mut String,
    positions: &Positions<'_>,
    error: &YaccGrammarError,
) -> Result<(), AllocError>
    requires { EachErrorSpan (IsPiece positions.now) error.now }
    ensures { OnOk result (string_bytes lines.new ≡ string_bytes lines.old ++ error_line positions.now error.now) }
{
    write_position(lines, positions, error.spans())?;
    writeln!(lines, "{error}")
}

/// Writes the line of a warning.
fn write_warning(
    lines: &mut String,
    positions: &Positions<'_>,
    warning: &YaccGrammarWarning,
) -> Result<(), AllocError>
    requires { EachWarningSpan (IsPiece positions.now) warning.now }
    ensures { OnOk result (string_bytes lines.new ≡ string_bytes lines.old ++ warning_line positions.now warning.now) }
{
    write_position(lines, positions, warning.spans())?;
    writeln!(lines, "{warning}")
}

/// Writes the line and the column of the first span, each followed by a colon.
fn write_position(
    lines: &mut String,
    positions: &Positions<'_>,
    spans: &[Span],
) -> Result<(), AllocError>
    requires some { 0 < length spans.now }
    requires located { All (IsPiece positions.now) spans.now }
    ensures { OnOk result (string_bytes lines.new ≡ string_bytes lines.old ++ first_position positions.now spans.now) }
{
    let start = spans[0].start();
    let (line, column) = positions.line_and_column(start).unwrap();
    write!(lines, "{line}:{column}: ")
}
