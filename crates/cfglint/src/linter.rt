//! What is reported for a text.

ghost use Rattle.std.specs.Prelude.{IfOk};
ghost use Rattle.cfglint.specs.Readings.{IsOpen};
ghost use Rattle.cfglint.specs.Reported.{ReportsText};

use crate::bison::bison_report;
use crate::file_reporter::FileReporter;
use crate::reading::{Reading, reading_of};
use crate::signs::has_bison_sign;
use crate::yacc::read_as_yacc;
use cfglint_shell::{LintOptions, Linter, Report};
use cfgprogram::KindArg;
use cfgrammar::yacc::{YaccKind, YaccOriginalActionKind};
use std::alloc::{AllocError, Global};

/// Reports a text's errors, or the findings about its grammar that the options don't allow, in the format that the
/// options name: each with its line of the text and carets, or as a line of JSON. If no kind is requested, a text is
/// read as the kind that its section names or, if it names none, as the options' default kind. Without that it is read
/// as `original-noaction`, or as a Bison file if it then has errors, and something that only Bison's files have.
#[derive(Clone, Copy, Debug)]
pub struct Lints;

impl Linter for Lints {
    ghost use Rattle.cfglint.specs.Reported.{ReportsText};

    ghost reports = { ReportsText };

    fn lint(
        &self,
        alloc: Global,
        options: &LintOptions,
        name: &str,
        text: &str,
    ) -> Result<Report, AllocError> {
        let reporter = FileReporter {
            name,
            options: *options,
        };
        match reading_of(alloc, options, text)? {
            Reading::Yacc(kind) => Ok(read_as_yacc(alloc, kind, text, &reporter)?.report),
            Reading::Bison => bison_report(alloc, text, &reporter),
            Reading::Either => guessed_report(alloc, text, &reporter),
        }
    }
}

/// Reports a text that names no kind, with options that don't either.
///
/// # Errors
///
/// Running out of memory.
fn guessed_report(
    alloc: Global,
    text: &str,
    reporter: &FileReporter<'_>,
) -> Result<Report, AllocError>
    requires { IsOpen reporter.now.options text.now }
    ensures { IfOk result (ReportsText reporter.now.options reporter.now.name.now text.now) }
{
    let plain = KindArg::Named(YaccKind::Original(YaccOriginalActionKind::NoAction));
    let outcome = read_as_yacc(alloc, plain, text, reporter)?;
    if !outcome.is_refused {
        return Ok(outcome.report);
    }
    if !has_bison_sign(text) {
        return Ok(outcome.report);
    }
    bison_report(alloc, text, reporter)
}
