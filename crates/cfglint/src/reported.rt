//! Findings as the program reports them.

ghost use Rattle.std.specs.Prelude.{◌≡◌, [], ◌∷◌, ◌++◌, IfOk, OnOk, string_bytes};
ghost use Rattle.std.specs.List.{count_by};
ghost use Rattle.cfglint.specs.Allowed.{AreOf};
ghost use Rattle.cfglint.specs.ReportedFindings.{finding_lines, has_symbols_of, level_in, reported_by};

use crate::allowed::Allowances;
use crate::messages::Message;
use cfgfindings::{Finding, FindingKind};
use cfgjson::{Diagnosed, Diagnostic};
use cfgrammar::{ColumnUnit, Source, Spanned};
use finding_kinds::{Level, Levels};
use std::alloc::{AllocError, Global};
use std::fmt;
use std::marker::Model;

/// A finding, as it is reported.
#[derive(Debug, Drop)]
pub(crate) struct ReportedFinding<'a> {
    finding: &'a Finding,
    is_error: bool,
}

impl<'a> Model for ReportedFinding<'a> {
    ghost use Rattle.cfglint.specs.ReportedFindings.{Reported};

    ghost Value = { Reported };

    ghost view = { λ x. record { finding = x.finding.now; is_error = x.is_error } };
}

impl fmt::Display for ReportedFinding<'_> {
    ghost use Rattle.std.specs.Prelude.{Some};
    ghost use Rattle.cfglint.specs.ReportedFindings.{finding_message};

    ghost output = { λ x. Some (finding_message x) };

    fn fmt<W: fmt::Write>(&self, f: &mut fmt::Formatter<W>) -> fmt::Result {
        let word = self.finding.kind().word();
        write!(f, "{} [{word}]", self.finding)
    }
}

impl Diagnosed for ReportedFinding<'_> {
    ghost use Rattle.cfglint.specs.ReportedFindings.{shown_finding};

    ghost shown = { shown_finding };

    fn message(&self, alloc: Global) -> Result<String, AllocError> {
        String::from_str(alloc, self.finding.text())
    }

    fn diagnostic<'b>(&'b self, text: &'b str) -> Diagnostic<'b> {
        Diagnostic {
            is_error: self.is_error,
            kind: self.finding.kind().word(),
            text,
            hint: self.finding.hint(),
            spans: self.finding.spans(),
            has_symbols: has_symbols(self.finding.kind()),
        }
    }
}

/// Whether the spans of findings of this kind are names of symbols.
fn has_symbols(kind: FindingKind) -> bool
    ensures { result ≡ has_symbols_of kind }
{
    matches!(
        kind,
        FindingKind::UnusedRule
            | FindingKind::UnusedToken
            | FindingKind::ShadowedRule
            | FindingKind::StartWithoutSentence
            | FindingKind::NoSentence
            | FindingKind::UnusableRule
            | FindingKind::UselessSymbol
            | FindingKind::CyclicRule
            | FindingKind::UnusedPrecedence
            | FindingKind::RepeatedToken
            | FindingKind::OverriddenPrecedence
            | FindingKind::GluedKeyword
            | FindingKind::NeedlessExpectUnused
            | FindingKind::EscapedToken
            | FindingKind::SwallowedRule
    )
}

/// The findings about a text that are reported with these levels, in order: those that no comment allows.
pub(crate) fn reported_findings<'a>(
    alloc: Global,
    text: &str,
    findings: &'a [Finding],
    levels: &Levels,
) -> Result<Vec<ReportedFinding<'a>>, AllocError>
    ensures { IfOk result (λ reported. reported.items ≡ reported_by text.now levels.now findings.now) }
{
    let allowances = Allowances::of(alloc, text)?;
    let mut reported = Vec::new(alloc);
    for finding in findings {
        let is_error = match level_of(text, &allowances, levels, finding) {
            Level::Allow => continue,
            Level::Warn => false,
            Level::Deny => true,
        };
        reported.push(ReportedFinding { finding, is_error })?;
    }
    Ok(reported)
}

/// What becomes of a finding about the text.
fn level_of(text: &str, allowances: &Allowances<'_>, levels: &Levels, finding: &Finding) -> Level
    requires { AreOf text.now allowances.now }
    ensures { result ≡ level_in text.now levels.now finding.now }
{
    if allowances.cover(text, finding) {
        Level::Allow
    } else {
        levels.of(finding.kind())
    }
}

/// The findings as people read them, each with its note after it.
pub(crate) fn finding_lines(
    alloc: Global,
    unit: ColumnUnit,
    colors: bool,
    name: &str,
    text: &str,
    findings: &[ReportedFinding<'_>],
) -> Result<String, AllocError>
    ensures { IfOk result (λ lines. string_bytes lines ≡ finding_lines unit colors name.now text.now findings.now) }
{
    let source = Source::with_columns(alloc, name, text, unit)?;
    let mut lines = String::new(alloc);
    for finding in findings {
        push_finding(alloc, &mut lines, &source, colors, finding)?;
    }
    Ok(lines)
}

/// Writes a finding, and its note after it.
fn push_finding(
    alloc: Global,
    lines: &mut String,
    source: &Source<'_>,
    colors: bool,
    reported: &ReportedFinding<'_>,
) -> Result<(), AllocError>
    ensures { OnOk result (string_bytes lines.new ≡ string_bytes lines.old
        ++ finding_lines source.now.unit colors source.now.name.now source.now.text (reported.now ∷ [])) }
{
    let text = reported.to_string(alloc)?;
    let message = Message {
        is_error: reported.is_error,
        text: &text,
        spans: reported.finding.spans(),
        spanskind: reported.finding.spanskind(),
    };
    message.push(alloc, lines, source, colors)?;
    match reported.finding.hint() {
        Some(hint) => source.push_note(lines, hint, reported.finding.offset()),
        None => Ok(()),
    }
}

/// How many of them are errors.
pub(crate) fn error_count(reported: &[ReportedFinding<'_>]) -> usize
    ensures { result ≡ count_by (λ finding. finding.is_error) reported.now }
{
    reported.iter().filter(|finding| finding.is_error).count()
}
