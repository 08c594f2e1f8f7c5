//! Misspelled variables of `%define`, and values of theirs.

ghost use Rattle.std.specs.Prelude.{◌≡◌, ◌++◌, length, map, option_map, IfOk, OnOk};
ghost use Rattle.bison_words.specs.Words.{word_view};
ghost use Rattle.bison_findings.specs.Defines.{ReportsMisspelledDefine, identifier_of, is_among, is_define, misspelled};
ghost use Rattle.bison_findings.specs.Defines.{misspelled_among, misspelled_value, misspelled_variable};
ghost use Rattle.bison_findings.specs.Defines.{misspelled_word};
ghost use Rattle.bison_findings.specs.Defines.{values_of, variables};
ghost use Rattle.text_findings.specs.Reports.{ReportsBelow};

use bison_words::{Directive, Lexeme, Word};
use cfgnear::nearest;
use cfgrammar::Span;
use std::alloc::{AllocError, Global};
use text_findings::{Finding, FindingKind, Reporter, push_reported};

/// The variables that Bison 3.8 knows.
const VARIABLES: [&str; 38] = [
    "api.filename.type",
    "api.header.include",
    "api.location.file",
    "api.location.include",
    "api.location.type",
    "api.namespace",
    "api.package",
    "api.parser.abstract",
    "api.parser.annotations",
    "api.parser.class",
    "api.parser.extends",
    "api.parser.final",
    "api.parser.implements",
    "api.parser.public",
    "api.parser.strictfp",
    "api.position.file",
    "api.position.type",
    "api.prefix",
    "api.pure",
    "api.push-pull",
    "api.symbol.prefix",
    "api.token.constructor",
    "api.token.prefix",
    "api.token.raw",
    "api.value.automove",
    "api.value.type",
    "api.value.union.name",
    "lr.default-reduction",
    "lr.default-reductions",
    "lr.keep-unreachable-state",
    "lr.keep-unreachable-states",
    "lr.type",
    "parse.assert",
    "parse.error",
    "parse.lac",
    "parse.lac.es-capacity-initial",
    "parse.lac.memory-trace",
    "parse.trace",
];

/// Adds a finding for each `%define` whose variable or value is unknown, but near to a known one.
pub(crate) fn push_misspelled_defines(
    alloc: Global,
    all: &mut Vec<Finding>,
    words: &[Word<'_>],
) -> Result<(), AllocError>
    ensures { OnOk result ((reported : _) × ReportsBelow (ReportsMisspelledDefine (map word_view words.now))
        (length (map word_view words.now)) reported × (all.new.items ≡ all.old.items ++ reported)) }
{
    push_reported(alloc, all, &MisspelledDefines(words), words.len())
}

/// Reports `%define`s with misspelled variables or values.
#[derive(Drop)]
struct MisspelledDefines<'a>(&'a [Word<'a>]);

impl Reporter for MisspelledDefines<'_> {
    ghost use Rattle.std.specs.Prelude.{length, map};
    ghost use Rattle.bison_words.specs.Words.{word_view};
    ghost use Rattle.bison_findings.specs.Defines.{ReportsMisspelledDefine};

    ghost count = { λ x. length (map word_view x.0.now) };

    ghost reports = { λ x. ReportsMisspelledDefine (map word_view x.0.now) };

    fn report(&self, alloc: Global, number: usize) -> Result<Option<Finding>, AllocError> {
        let (_, rest) = self.0.split_at(self.0.len().min(number));
        misspelled(alloc, rest)
    }
}

/// The finding about a `%define` with which the words begin.
fn misspelled(alloc: Global, words: &[Word<'_>]) -> Result<Option<Finding>, AllocError>
    ensures { IfOk result (λ found. found ≡ misspelled (map word_view words.now)) }
{
    match words {
        [define, variable, rest @ ..] if is_define(*define) => match identifier_of(*variable) {
            Some((name, span)) => misspelled_variable(alloc, rest, name, span),
            None => Ok(None),
        },
        _ => Ok(None),
    }
}

/// Whether a word is `%define`.
fn is_define(word: Word<'_>) -> bool
    ensures { result ≡ is_define (word_view word.entry) }
{
    matches!(word.lexeme, Lexeme::Directive(Directive::Define))
}

/// An identifier's name, and its span.
fn identifier_of<'a>(word: Word<'a>) -> Option<(&'a str, Span)>
    ensures { option_map (λ found. (found.0.now, found.1)) result ≡ identifier_of (word_view word.entry) }
{
    match word.lexeme {
        Lexeme::Identifier(name) => Some((name, word.span)),
        _ => None,
    }
}

/// The finding about a variable, or if that is known, about its value in the words after it.
fn misspelled_variable(
    alloc: Global,
    rest: &[Word<'_>],
    name: &str,
    span: Span,
) -> Result<Option<Finding>, AllocError>
    ensures { IfOk result (λ found. found ≡ misspelled_variable (map word_view rest.now) (name.now, span)) }
{
    if is_variable(name) {
        misspelled_value(alloc, name, rest)
    } else {
        misspelled_name(alloc, name, span)
    }
}

/// The finding about the name of a variable.
#[tactic(auto, unfolding(crate::specs::Defines::variables))]
fn misspelled_name(alloc: Global, name: &str, span: Span) -> Result<Option<Finding>, AllocError>
    ensures { IfOk result (λ found. found ≡ misspelled_among variables (name.now, span)) }
{
    misspelled_among(alloc, &VARIABLES, name, span)
}

/// Whether Bison knows the variable.
#[tactic(auto, unfolding(crate::specs::Defines::variables))]
fn is_variable(name: &str) -> bool
    ensures { result ≡ is_among variables name.now }
{
    is_among(&VARIABLES, name)
}

/// The finding about the value of a variable with which the words begin.
fn misspelled_value(
    alloc: Global,
    variable: &str,
    rest: &[Word<'_>],
) -> Result<Option<Finding>, AllocError>
    ensures { IfOk result (λ found. found ≡ misspelled_value variable.now (map word_view rest.now)) }
{
    match rest {
        [value, ..] => match identifier_of(*value) {
            Some((name, span)) => misspelled_among(alloc, values_of(variable), name, span),
            None => Ok(None),
        },
        [] => Ok(None),
    }
}

/// The values of a variable, if they are words.
#[tactic(auto, unfolding(crate::specs::Defines::values_of))]
fn values_of(variable: &str) -> &'static [&'static str]
    ensures { map (λ value. value.now) result.now ≡ values_of variable.now }
{
    match variable {
        "parse.error" => &["custom", "detailed", "simple", "verbose"],
        "parse.lac" => &["none", "full"],
        "lr.type" => &["lalr", "ielr", "canonical-lr"],
        "lr.default-reduction" => &["most", "consistent", "accepting"],
        "api.push-pull" => &["pull", "push", "both"],
        "api.value.type" => &["union", "union-directive", "variant"],
        _ => &[],
    }
}

/// The finding about a word, if it is none of these names, but near to one.
fn misspelled_among(
    alloc: Global,
    names: &[&str],
    word: &str,
    span: Span,
) -> Result<Option<Finding>, AllocError>
    ensures { IfOk result (λ found. found
        ≡ misspelled_among (map (λ name. name.now) names.now) (word.now, span)) }
{
    if is_among(names, word) {
        return Ok(None);
    }
    match nearest(alloc, word, names)? {
        Some(other) => Ok(Some(misspelled_word(alloc, word, span, other)?)),
        None => Ok(None),
    }
}

/// Whether a word is one of these names.
fn is_among(names: &[&str], word: &str) -> bool
    ensures { result ≡ is_among (map (λ name. name.now) names.now) word.now }
{
    names.contains(&word)
}

/// The finding that a word is unknown, but near to this one.
fn misspelled_word(
    alloc: Global,
    word: &str,
    span: Span,
    other: &str,
) -> Result<Finding, AllocError>
    ensures { IfOk result (λ finding. finding ≡ misspelled_word word.now span other.now) }
{
    let hint = format!(in alloc; "did you mean '{other}'?")?;
    let text = format!(in alloc; "Misspelled %define: '{word}' is unknown")?;
    let finding = Finding::at(alloc, FindingKind::MisspelledDefine, span, text)?;
    Ok(finding.with_hint(Some(hint)))
}
