//! What is reported of the text of a file, in the format that the options name.

ghost use Rattle.std.specs.Prelude.{◌≡◌, ◌&&◌, IfOk, string_bytes};
ghost use Rattle.cfgrammar.specs.TreeView.{syntax};
ghost use Rattle.cfglint_shell.specs.Formats.{is_text};
ghost use Rattle.cfglint.specs.ReportedLines.{AreErrorLines, AreFindingLines, ReportsFindings, ReportsNoted};
ghost use Rattle.cfglint.specs.ReportedLines.{ShowsStates};

use crate::reported::{ReportedFinding, error_count, finding_lines, reported_findings};
use crate::reported_error::{ReportedError, error_lines};
use bison_findings::states_text;
use cfgfindings::findings;
use cfgjson::{annotation_lines, json_lines, result_lines};
use cfglint_shell::{Format, LintOptions, Report};
use cfgrammar::bison::Associativity;
use cfgrammar::yacc::YaccGrammar;
use cfgrammar::yacc::ast::GrammarAST;
use finding_kinds::Levels;
use std::alloc::{AllocError, Global};

/// Reports errors or findings for the text of the file with this name, without what it was read as.
#[derive(Clone, Copy)]
pub(crate) struct FileReporter<'a> {
    pub(crate) name: &'a str,
    pub(crate) options: LintOptions,
}

impl<'a> FileReporter<'a> {
    /// The reporter with these levels of findings.
    pub(crate) fn with_levels(&self, levels: Levels) -> FileReporter<'a>
        ensures { result ≡ record self.now { options = record self.now.options { levels = levels } } }
    {
        FileReporter {
            name: self.name,
            options: LintOptions {
                levels,
                ..self.options
            },
        }
    }
}

impl FileReporter<'_> {
    /// Reports errors in the text.
    ///
    /// # Errors
    ///
    /// Running out of memory.
    pub(crate) fn report_errors(
        &self,
        alloc: Global,
        text: &str,
        errors: &[ReportedError],
    ) -> Result<Report, AllocError>
        ensures { IfOk result (ReportsNoted self.now.options.format self.now.options.columns self.now.options.colors
            self.now.name.now text.now errors.now) }
    {
        Ok(Report {
            lines: self.error_lines(alloc, text, errors)?,
            kind: None,
            errors: errors.len(),
            warnings: 0,
        })
    }

    /// Reports the findings about a grammar, the operators of whose levels associate as this says, and after them the
    /// states of its parser if the options show them.
    ///
    /// # Errors
    ///
    /// Running out of memory.
    pub(crate) fn report_findings(
        &self,
        alloc: Global,
        text: &str,
        ast: &GrammarAST,
        grammar: &YaccGrammar<u32>,
        associativities: &[Associativity],
    ) -> Result<Report, AllocError>
        ensures { IfOk result (ReportsFindings self.now.options.format self.now.options.columns self.now.options.colors
            self.now.name.now text.now self.now.options.shows_states self.now.options.levels (syntax ast.now)
            grammar.now associativities.now) }
    {
        let all = findings(alloc, text, ast, grammar, associativities)?;
        let reported = reported_findings(alloc, text, &all, &self.options.levels)?;
        let mut lines = self.finding_lines(alloc, text, &reported)?;
        let states = self.states_lines(alloc, grammar, associativities)?;
        lines.push_str(&states)?;
        let errors = error_count(&reported);
        Ok(Report {
            lines,
            kind: None,
            errors,
            warnings: reported.len() - errors,
        })
    }

    /// The lines for errors in the text.
    fn error_lines(
        &self,
        alloc: Global,
        text: &str,
        errors: &[ReportedError],
    ) -> Result<String, AllocError>
        ensures { IfOk result (λ lines. AreErrorLines self.now.options.format self.now.options.columns
            self.now.options.colors self.now.name.now text.now errors.now (string_bytes lines)) }
    {
        let LintOptions {
            format,
            columns,
            colors,
            ..
        } = self.options;
        match format {
            Format::Text => error_lines(alloc, columns, colors, self.name, text, errors),
            Format::Json => json_lines(alloc, self.name, text, errors),
            Format::Github => annotation_lines(alloc, self.name, text, errors),
            Format::Sarif => result_lines(alloc, self.name, text, errors),
        }
    }

    /// The lines for findings about the text.
    fn finding_lines(
        &self,
        alloc: Global,
        text: &str,
        all: &[ReportedFinding<'_>],
    ) -> Result<String, AllocError>
        ensures { IfOk result (λ lines. AreFindingLines self.now.options.format self.now.options.columns
            self.now.options.colors self.now.name.now text.now all.now (string_bytes lines)) }
    {
        let LintOptions {
            format,
            columns,
            colors,
            ..
        } = self.options;
        match format {
            Format::Text => finding_lines(alloc, columns, colors, self.name, text, all),
            Format::Json => json_lines(alloc, self.name, text, all),
            Format::Github => annotation_lines(alloc, self.name, text, all),
            Format::Sarif => result_lines(alloc, self.name, text, all),
        }
    }

    /// The states of the grammar's parser if they are shown, as only the format `text` does; otherwise nothing.
    fn states_lines(
        &self,
        alloc: Global,
        grammar: &YaccGrammar<u32>,
        associativities: &[Associativity],
    ) -> Result<String, AllocError>
        ensures { IfOk result (λ states. ShowsStates
            (is_text self.now.options.format && self.now.options.shows_states) grammar.now associativities.now
            (string_bytes states)) }
    {
        match self.options.format {
            Format::Text if self.options.shows_states => {
                states_text(alloc, grammar, associativities)
            }
            _ => Ok(String::new(alloc)),
        }
    }
}
