//! The log of SARIF of a run.

ghost use Rattle.std.specs.Prelude.{◌≡◌, IfOk, string_bytes};
ghost use Rattle.cfglint_shell.specs.SarifLog.{after_comma, document, log_start, sarif_log};

use crate::format::Format;
use std::alloc::{AllocError, Global};

/// What is written in a format, where these are the lines about the files.
pub(crate) fn document(alloc: Global, format: Format, lines: String) -> Result<String, AllocError>
    ensures { IfOk result (λ text. string_bytes text ≡ document format (string_bytes lines)) }
{
    match format {
        Format::Text | Format::Json | Format::Github => Ok(lines),
        Format::Sarif => sarif_log(alloc, &lines),
    }
}

/// The log of these lines of results.
#[tactic(auto, unfolding(crate::specs::SarifLog::sarif_log))]
fn sarif_log(alloc: Global, lines: &str) -> Result<String, AllocError>
    ensures { IfOk result (λ log. string_bytes log ≡ sarif_log lines.now) }
{
    let start = log_start();
    let results = after_comma(lines);
    format!(in alloc; "{start}{results}\n]}}]}}\n")
}

/// What comes before the results.
#[tactic(auto, unfolding(crate::specs::SarifLog::log_start))]
fn log_start() -> &'static str
    ensures { result.now ≡ log_start }
{
    LOG_START
}

/// What follows the first comma.
fn after_comma(lines: &str) -> &str
    ensures { result.now ≡ after_comma lines.now }
{
    match lines.split_once(',') {
        Some((_, results)) => results,
        None => "",
    }
}

/// What comes before the results: the program, and its rules.
const LOG_START: &str =
    "{\"version\":\"2.1.0\",\"$schema\":\"https://json.schemastore.org/sarif-2.1.0.json\",
\"runs\":[{\"tool\":{\"driver\":{\"name\":\"cfglint\",\"version\":\"0.15.0\",\"rules\":[
{\"id\":\"unused-rule\"},
{\"id\":\"unused-token\"},
{\"id\":\"shadowed-rule\"},
{\"id\":\"start-without-sentence\"},
{\"id\":\"no-sentence\"},
{\"id\":\"unusable-rule\"},
{\"id\":\"unusable-production\"},
{\"id\":\"useless-symbol\"},
{\"id\":\"cyclic-rule\"},
{\"id\":\"repeated-production\"},
{\"id\":\"unused-precedence\"},
{\"id\":\"repeated-token\"},
{\"id\":\"overridden-precedence\"},
{\"id\":\"glued-keyword\"},
{\"id\":\"needless-expect-unused\"},
{\"id\":\"escaped-token\"},
{\"id\":\"implicit-empty\"},
{\"id\":\"shift-reduce\"},
{\"id\":\"reduce-reduce\"},
{\"id\":\"unmet-expect\"},
{\"id\":\"undefined-precedence\"},
{\"id\":\"missing-empty\"},
{\"id\":\"swallowed-rule\"},
{\"id\":\"unknown-key\"},
{\"id\":\"unknown-reference\"},
{\"id\":\"unread-value\"},
{\"id\":\"misspelled-define\"},
{\"id\":\"repeated-alias\"},
{\"id\":\"stray-comma\"},
{\"id\":\"illegal-integer\"},
{\"id\":\"illegal-name\"},
{\"id\":\"illegal-string\"},
{\"id\":\"incomplete-rule\"},
{\"id\":\"incomplete-comment\"},
{\"id\":\"incomplete-action\"},
{\"id\":\"missing-colon\"},
{\"id\":\"missing-right-arrow\"},
{\"id\":\"mismatched-brace\"},
{\"id\":\"non-empty-production\"},
{\"id\":\"premature-end\"},
{\"id\":\"production-not-terminated\"},
{\"id\":\"programs-not-supported\"},
{\"id\":\"unknown-declaration\"},
{\"id\":\"prec-without-token\"},
{\"id\":\"duplicate-precedence\"},
{\"id\":\"duplicate-avoid-insert\"},
{\"id\":\"duplicate-implicit-tokens\"},
{\"id\":\"duplicate-expect\"},
{\"id\":\"duplicate-expect-rr\"},
{\"id\":\"duplicate-start\"},
{\"id\":\"duplicate-actiontype\"},
{\"id\":\"duplicate-epp\"},
{\"id\":\"reached-eol\"},
{\"id\":\"invalid-string\"},
{\"id\":\"no-start-rule\"},
{\"id\":\"unknown-symbol\"},
{\"id\":\"invalid-start-rule\"},
{\"id\":\"unknown-rule\"},
{\"id\":\"unknown-token\"},
{\"id\":\"no-precedence\"},
{\"id\":\"unknown-epp\"},
{\"id\":\"expected-input\"},
{\"id\":\"invalid-yacc-kind\"},
{\"id\":\"storage-too-small\"},
{\"id\":\"missing-section\"},
{\"id\":\"section-illegal-name\"},
{\"id\":\"section-expected-token\"},
{\"id\":\"section-unexpected-token\"},
{\"id\":\"section-duplicate-entry\"},
{\"id\":\"section-invalid-entry\"},
{\"id\":\"section-conversion\"},
{\"id\":\"illegal-characters\"},
{\"id\":\"illegal-identifier\"},
{\"id\":\"illegal-escape\"},
{\"id\":\"illegal-bracketed-name\"},
{\"id\":\"empty-literal\"},
{\"id\":\"long-literal\"},
{\"id\":\"unknown-directive\"},
{\"id\":\"incomplete-literal\"},
{\"id\":\"incomplete-string\"},
{\"id\":\"incomplete-tag\"},
{\"id\":\"incomplete-bracketed-name\"},
{\"id\":\"incomplete-code\"},
{\"id\":\"incomplete-prologue\"},
{\"id\":\"unexpected-word\"},
{\"id\":\"repeated-in-production\"},
{\"id\":\"illegal-priority\"},
{\"id\":\"not-for-rules\"},
{\"id\":\"several-starts\"},
{\"id\":\"rule-is-token\"},
{\"id\":\"undeclared-symbol\"},
{\"id\":\"no-rules\"},
{\"id\":\"unreadable-file\"},
{\"id\":\"invalid-encoding\"}
]}},\"columnKind\":\"unicodeCodePoints\",\"results\":[";
