//! What is reported of a text as a Bison file.

ghost use Rattle.std.specs.Prelude.{All, IfOk};
ghost use Rattle.cfgrammar.specs.BisonErrorPlaces.{IsErrorAt};
ghost use Rattle.cfglint.specs.BisonReports.{ReportsAsBison, ReportsBison, ReportsBisonErrors, ReportsTooLarge};

use crate::file_levels::bison_levels;
use crate::file_reporter::FileReporter;
use crate::reported_bison::reported_bison_errors;
use crate::reported_error::ReportedError;
use crate::suggestion::Names;
use cfglint_shell::{FileKind, Report};
use cfgrammar::Span;
use cfgrammar::bison::{BisonFault, BisonFile, read};
use cfgrammar::yacc::{YaccGrammarError, YaccGrammarErrorKind};
use std::alloc::{AllocError, Global};

/// Reports a text as a Bison file.
///
/// # Errors
///
/// Running out of memory.
pub(crate) fn bison_report(
    alloc: Global,
    text: &str,
    reporter: &FileReporter<'_>,
) -> Result<Report, AllocError>
    ensures { IfOk result (ReportsAsBison reporter.now.options reporter.now.name.now text.now) }
{
    let file = read(alloc, text)?;
    let report = report_file(alloc, text, &file, reporter)?;
    Ok(Report {
        kind: Some(FileKind::Bison),
        ..report
    })
}

/// Reports a text that reads as this file.
fn report_file(
    alloc: Global,
    text: &str,
    file: &BisonFile,
    reporter: &FileReporter<'_>,
) -> Result<Report, AllocError>
    requires { All (IsErrorAt text.now) file.now.errors }
    ensures { IfOk result (ReportsBison reporter.now.options reporter.now.name.now text.now file.now) }
{
    match file.grammar::<u32>(alloc) {
        Ok(grammar) => reporter
            .with_levels(bison_levels(reporter.options.levels))
            .report_findings(alloc, text, file.ast(), &grammar, file.levels()),
        Err(BisonFault::Errors(_)) => report_errors(alloc, text, file, reporter),
        Err(BisonFault::StorageTooSmall) => report_too_large(alloc, text, reporter),
        Err(BisonFault::OutOfMemory) => Err(AllocError),
    }
}

/// Reports the errors of a file.
fn report_errors(
    alloc: Global,
    text: &str,
    file: &BisonFile,
    reporter: &FileReporter<'_>,
) -> Result<Report, AllocError>
    requires { All (IsErrorAt text.now) file.now.errors }
    ensures { IfOk result (ReportsBisonErrors reporter.now.options reporter.now.name.now text.now file.now) }
{
    let names = Names::of(alloc, Some(file.ast()))?;
    let reported = reported_bison_errors(alloc, text, &names, file.errors())?;
    reporter.report_errors(alloc, text, &reported)
}

/// Reports that a grammar is too large.
fn report_too_large(
    alloc: Global,
    text: &str,
    reporter: &FileReporter<'_>,
) -> Result<Report, AllocError>
    ensures { IfOk result (ReportsTooLarge reporter.now.options reporter.now.name.now text.now) }
{
    let mut spans = Vec::new(alloc);
    spans.push(Span::new(0, 0))?;
    let error = YaccGrammarError::new(YaccGrammarErrorKind::StorageTooSmall, spans);
    let reported = ReportedError::of_yacc(alloc, &error, None)?;
    reporter.report_errors(alloc, text, &[reported])
}
