//! What is reported of a text as a file of one of the library's kinds.

ghost use Rattle.std.specs.Prelude.{◌≡◌, IfOk, option_map};
ghost use Rattle.cfglint_shell.specs.declared.file_kind.FileKind.TheVariants.{Yacc};
ghost use Rattle.cfglint.specs.YaccReports.{IsOutcome};

use crate::file_levels::yacc_levels;
use crate::file_reporter::FileReporter;
use crate::shown::shown_errors;
use crate::suggestion::Names;
use crate::yacc_errors::reported_errors;
use cfglint_shell::{FileKind, Report};
use cfgprogram::KindArg;
use cfgprogram::driver::{TextReader, read_text_and_kind};
use cfgrammar::yacc::ast::GrammarAST;
use cfgrammar::yacc::{YaccGrammar, YaccGrammarError, YaccKind};
use std::alloc::{AllocError, Global};

/// What is reported of a text, and whether it is refused for its errors.
#[derive(Drop)]
pub(crate) struct Outcome {
    pub(crate) report: Report,
    pub(crate) is_refused: bool,
}

/// Reports a text as a file of the requested kind.
///
/// # Errors
///
/// Running out of memory.
pub(crate) fn read_as_yacc(
    alloc: Global,
    kind: KindArg,
    text: &str,
    reporter: &FileReporter<'_>,
) -> Result<Outcome, AllocError>
    ensures { IfOk result (IsOutcome reporter.now.options reporter.now.name.now text.now kind) }
{
    let (outcome, kind) = read_text_and_kind(alloc, kind, text, reporter)?;
    Ok(Outcome {
        report: Report {
            kind: file_kind(kind),
            ..outcome.report
        },
        is_refused: outcome.is_refused,
    })
}

/// The kind of file that a text of this kind is, if it was read as one.
fn file_kind(kind: Option<YaccKind>) -> Option<FileKind>
    ensures { result ≡ option_map Yacc kind }
{
    match kind {
        Some(kind) => Some(FileKind::Yacc(kind)),
        None => None,
    }
}

impl TextReader<Outcome> for FileReporter<'_> {
    ghost use Rattle.cfglint.specs.YaccReports.{IsFoundOutcome, IsRefusedOutcome};

    ghost of_errors = { λ x. IsRefusedOutcome x.options x.name.now };

    ghost of_grammar = { λ x. IsFoundOutcome x.options x.name.now };

    fn errors(
        &self,
        alloc: Global,
        text: &str,
        ast: Option<&GrammarAST>,
        errors: &[YaccGrammarError],
    ) -> Result<Outcome, AllocError> {
        let shown = shown_errors(alloc, text, ast, errors)?;
        let names = Names::of(alloc, ast)?;
        let reported = reported_errors(alloc, text, &names, &shown)?;
        let report = self.report_errors(alloc, text, &reported)?;
        Ok(Outcome {
            report,
            is_refused: true,
        })
    }

    fn grammar(
        &self,
        alloc: Global,
        text: &str,
        ast: &GrammarAST,
        grammar: &YaccGrammar<u32>,
    ) -> Result<Outcome, AllocError> {
        let reporter = self.with_levels(yacc_levels(self.options.levels));
        let report = reporter.report_findings(alloc, text, ast, grammar, &[])?;
        Ok(Outcome {
            report,
            is_refused: false,
        })
    }
}
