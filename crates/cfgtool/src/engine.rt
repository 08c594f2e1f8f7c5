//! The report on a text.

ghost use Rattle.std.specs.Prelude.{◌≡◌, ◌+◌, ◌-◌, ◌^◌, ◌<◌, Some, IfOk, IsErrOf, string_bytes};
ghost use Rattle.cfgrammar.specs.TextSpans.{IsPiece, IsWithin};
ghost use Rattle.cfgrammar.specs.Syntax.{EachSpan};
ghost use Rattle.cfgrammar.specs.TreeView.{syntax};
ghost use Rattle.cfgrammar.specs.Answer.{Found};
ghost use Rattle.cfgprogram.specs.ReadText.{IsFound};
ghost use Rattle.cfgtool.specs.FirstLines.{AreFirstLines};
ghost use Rattle.cfgtool.specs.FollowLines.{AreFollowLines};
ghost use Rattle.cfgtool.specs.ReportLines.{AreWarningLines};
ghost use Rattle.cfgtool.specs.Report.{AreRequestedLines, AreLinesOf, Reports};
ghost use Rattle.cfgtool.specs.Report.{ReportsLexer, ReportsText};
ghost use Rattle.cfgsink.specs.Reports.{faults_met};
ghost use Rattle.cfgsink.specs.declared.outcome.ReportFault.TheVariants as variants;

use crate::arguments::Command;
use crate::first_lines::first_lines;
use crate::follow_lines::follow_lines;
use crate::lexer_lines::lexer_lines;
use crate::lines::{error_lines, production_lines, warning_lines};
use crate::sentence_lines::sentence_lines;
use cfgprogram::KindArg;
use cfgprogram::driver::{TextReader, read_text};
use cfgrammar::yacc::ast::GrammarAST;
use cfgrammar::yacc::{YaccGrammar, YaccGrammarError};
pub use cfgsink::{Outcome, ReportFault};
use cfgsink::{Sink, write_report};
use std::alloc::{AllocError, Global};

/// Writes what the command prints for the text's grammar, whose indices have 32 bits, or else the errors of the text,
/// each as a line.
///
/// # Errors
///
/// Out of memory; nothing is then written. A fault of `out`, which then has a prefix of the lines.
pub fn report<W: Sink>(
    alloc: Global,
    kind: KindArg,
    command: Command,
    text: &str,
    out: &mut W,
) -> Result<Outcome, ReportFault>
    requires { W.faults_counted out.old < 2 ^ 64 - 1 }
    ensures reported { ReportsText kind command text.now (W.written out.old) (W.written out.new) result }
    ensures faults { W.faults_counted out.new ≡ W.faults_counted out.old + faults_met result }
    ensures untouched { IsErrOf result variants.OutOfMemory → out.new ≡ out.old }
{
    write_requested(alloc, kind, Request::Command(command), false, text, out)
}

/// Writes the differences between the tokens of the text's grammar and the names that a lexer has, or else the errors
/// of the text, each as a line. Each nonempty line of `names` is a name.
///
/// # Errors
///
/// Those of [`report`].
pub fn report_lex<W: Sink>(
    alloc: Global,
    kind: KindArg,
    text: &str,
    names: &str,
    out: &mut W,
) -> Result<Outcome, ReportFault>
    requires { W.faults_counted out.old < 2 ^ 64 - 1 }
    ensures reported { ReportsLexer kind text.now names.now (W.written out.old) (W.written out.new) result }
    ensures faults { W.faults_counted out.new ≡ W.faults_counted out.old + faults_met result }
    ensures untouched { IsErrOf result variants.OutOfMemory → out.new ≡ out.old }
{
    write_requested(alloc, kind, Request::Names(names), false, text, out)
}

/// What is requested of a text's grammar.
#[derive(Clone, Copy)]
pub(crate) enum Request<'a> {
    /// What the command prints.
    Command(Command),
    /// The differences between its tokens and these names, one per line.
    Names(&'a str),
}

/// Makes a report on what is requested.
#[derive(Clone, Copy)]
struct RequestReader<'a> {
    request: Request<'a>,
    /// Whether the process ends after the report.
    is_last: bool,
}

impl TextReader<(Outcome, String)> for RequestReader<'_> {
    ghost use Rattle.std.specs.Prelude.{◌≡◌};
    ghost use Rattle.cfgsink.specs.declared.outcome.Outcome.TheVariants.{Done, Refused};
    ghost use Rattle.cfgtool.specs.Report.{AreRequestedLines, IsReported};
    ghost use Rattle.cfgtool.specs.ReportLines.{error_lines};

    ghost of_errors = { λ reader text _ errors. IsReported Refused (λ lines. lines ≡ error_lines text errors) };

    ghost of_grammar = { λ reader text s g. IsReported Done (AreRequestedLines reader.request text s g) };

    fn is_last(&self) -> bool {
        self.is_last
    }

    fn errors(
        &self,
        alloc: Global,
        text: &str,
        _ast: Option<&GrammarAST>,
        errors: &[YaccGrammarError],
    ) -> Result<(Outcome, String), AllocError> {
        Ok((Outcome::Refused, error_lines(alloc, text, errors)?))
    }

    fn tree(
        &self,
        alloc: Global,
        text: &str,
        ast: &GrammarAST,
    ) -> Result<Option<(Outcome, String)>, AllocError> {
        match self.request {
            Request::Command(Command::Warnings) => {
                let lines = reported_warnings(alloc, text, ast)?;
                Ok(Some((Outcome::Done, lines)))
            }
            Request::Command(_) | Request::Names(_) => Ok(None),
        }
    }

    fn grammar(
        &self,
        alloc: Global,
        text: &str,
        ast: &GrammarAST,
        grammar: &YaccGrammar<u32>,
    ) -> Result<(Outcome, String), AllocError> {
        Ok((
            Outcome::Done,
            request_lines(alloc, self.request, text, ast, grammar)?,
        ))
    }
}

/// Makes the whole report, and then writes it. If the process ends after that, nothing of the grammar is dropped.
pub(crate) fn write_requested<W: Sink>(
    alloc: Global,
    kind: KindArg,
    request: Request<'_>,
    is_last: bool,
    text: &str,
    out: &mut W,
) -> Result<Outcome, ReportFault>
    requires { W.faults_counted out.old < 2 ^ 64 - 1 }
    ensures reported { (found : Found) × IsFound kind text.now found
        × Reports (AreRequestedLines request.entry text.now) text.now found
        (W.written out.old) (W.written out.new) result }
    ensures faults { W.faults_counted out.new ≡ W.faults_counted out.old + faults_met result }
    ensures untouched { IsErrOf result variants.OutOfMemory → out.new ≡ out.old }
{
    let reader = RequestReader { request, is_last };
    let made = read_text(alloc, kind, text, &reader);
    write_report(out, made)
}

/// The lines that are requested for a text with this tree and this grammar.
fn request_lines(
    alloc: Global,
    request: Request<'_>,
    text: &str,
    ast: &GrammarAST,
    grammar: &YaccGrammar<u32>,
) -> Result<String, AllocError>
    requires { EachSpan (IsPiece text.now) (IsWithin text.now) (syntax ast.now) }
    ensures { IfOk result (λ lines.
        AreRequestedLines request.entry text.now (syntax ast.now) grammar.now (string_bytes lines)) }
{
    match request {
        Request::Command(command) => command_lines(alloc, command, text, ast, grammar),
        Request::Names(names) => lexer_lines(alloc, grammar, names),
    }
}

/// The lines that a command prints for a text with this tree and this grammar.
fn command_lines(
    alloc: Global,
    command: Command,
    text: &str,
    ast: &GrammarAST,
    grammar: &YaccGrammar<u32>,
) -> Result<String, AllocError>
    requires { EachSpan (IsPiece text.now) (IsWithin text.now) (syntax ast.now) }
    ensures { IfOk result (λ lines. AreLinesOf command text.now (syntax ast.now) grammar.now (string_bytes lines)) }
{
    match command {
        Command::Grammar => production_lines(alloc, grammar),
        Command::Firsts => reported_firsts(alloc, grammar),
        Command::Follows => reported_follows(alloc, grammar),
        Command::Sentences => sentence_lines(alloc, grammar),
        Command::Warnings => reported_warnings(alloc, text, ast),
    }
}

/// The lines of a grammar's FIRST sets.
fn reported_firsts(alloc: Global, grammar: &YaccGrammar<u32>) -> Result<String, AllocError>
    ensures { IfOk result (λ lines. AreFirstLines grammar.now (string_bytes lines)) }
{
    let firsts = grammar.firsts(alloc)?;
    first_lines(alloc, grammar, &firsts)
}

/// The lines of a grammar's FOLLOW sets.
fn reported_follows(alloc: Global, grammar: &YaccGrammar<u32>) -> Result<String, AllocError>
    ensures { IfOk result (λ lines. AreFollowLines grammar.now (string_bytes lines)) }
{
    let follows = grammar.follows(alloc)?;
    follow_lines(alloc, grammar, &follows)
}

/// The lines of the warnings of a text with this tree.
fn reported_warnings(alloc: Global, text: &str, ast: &GrammarAST) -> Result<String, AllocError>
    requires { EachSpan (IsPiece text.now) (IsWithin text.now) (syntax ast.now) }
    ensures { IfOk result (λ lines. AreWarningLines text.now (syntax ast.now) (string_bytes lines)) }
{
    let warnings = ast.warnings(alloc)?;
    warning_lines(alloc, text, &warnings)
}
