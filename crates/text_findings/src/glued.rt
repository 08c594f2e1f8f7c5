//! Keywords of declarations that no blank parts from their first name: `%tokens` is `%token s`.

ghost use Rattle.std.specs.Prelude.{◌≡◌, ◌==◌, ◌++◌, length, option_map, List, IfOk, OnOk};
ghost use Rattle.std.specs.List.{ends_with};
ghost use Rattle.cfgrammar.specs.TreeView.{syntax};
ghost use Rattle.text_findings.specs.Reports.{ReportsBelow};
ghost use Rattle.text_findings.specs.Glued.{ReportsGlued, glued, has_quote, is_quote, keyword_at_end, keyword_before};
ghost use Rattle.text_findings.specs.Finding.{ShownFinding};
ghost use Rattle.text_findings.specs.declared.words.Words.TheVariants.{Precedences, RepeatedTokens, Tokens};

use crate::finding::{Finding, FindingKind};
use crate::reporter::{Reporter, push_reported};
use crate::words::Words;
use cfgrammar::Span;
use cfgrammar::yacc::ast::GrammarAST;
use std::alloc::{AllocError, Global};

/// Adds a finding for each token, then for each precedence and for each repeated token, that directly follows the
/// keyword of its declaration.
pub fn push_glued(
    alloc: Global,
    all: &mut Vec<Finding>,
    text: &str,
    ast: &GrammarAST,
) -> Result<(), AllocError>
    ensures { OnOk result ((tokens precedences repeated : List ShownFinding)
        × ReportsBelow (ReportsGlued text.now (syntax ast.now) Tokens) (length (syntax ast.now).tokens) tokens
        × ReportsBelow (ReportsGlued text.now (syntax ast.now) Precedences)
        (length (syntax ast.now).tables.precedences) precedences
        × ReportsBelow (ReportsGlued text.now (syntax ast.now) RepeatedTokens)
        (length (syntax ast.now).repeated_tokens) repeated
        × (all.new.items ≡ all.old.items ++ (tokens ++ (precedences ++ repeated)))) }
{
    let tokens = GluedWords {
        text,
        ast,
        words: Words::Tokens,
    };
    push_reported(alloc, all, &tokens, ast.tokens().len())?;
    let precedences = GluedWords {
        text,
        ast,
        words: Words::Precedences,
    };
    push_reported(alloc, all, &precedences, ast.precs().len())?;
    let repeated = GluedWords {
        text,
        ast,
        words: Words::RepeatedTokens,
    };
    push_reported(alloc, all, &repeated, ast.repeated_tokens().len())
}

/// Reports words of a text that directly follow the keyword of their declaration.
#[derive(Drop)]
struct GluedWords<'a> {
    text: &'a str,
    ast: &'a GrammarAST,
    words: Words,
}

impl Reporter for GluedWords<'_> {
    ghost use Rattle.std.specs.Prelude.{length};
    ghost use Rattle.cfgrammar.specs.TreeView.{syntax};
    ghost use Rattle.text_findings.specs.Glued.{ReportsGlued};
    ghost use Rattle.text_findings.specs.Words.{word_count};

    ghost count = { λ x. word_count x.words (syntax x.ast.now) };

    ghost reports = { λ x. ReportsGlued x.text.now (syntax x.ast.now) x.words };

    fn report(&self, alloc: Global, number: usize) -> Result<Option<Finding>, AllocError> {
        match self.words.get(self.ast, number) {
            Some((name, span)) => glued(alloc, self.text, name, span),
            None => Ok(None),
        }
    }
}

/// The finding that a name directly follows the keyword of its declaration, if it does.
fn glued(alloc: Global, text: &str, name: &str, span: Span) -> Result<Option<Finding>, AllocError>
    ensures { IfOk result (λ found. found ≡ glued text.now (record { name = name.now; span = span })) }
{
    if has_quote(text, span.start()) {
        return Ok(None);
    }
    let Some(keyword) = keyword_before(text, span.start()) else {
        return Ok(None);
    };
    let words = format!(in alloc; "'{keyword}{name}' is read as '{keyword} {name}'")?;
    Ok(Some(Finding::at(alloc, FindingKind::GluedKeyword, span, words)?))
}

/// Whether the text has a quote at this offset.
fn has_quote(text: &str, offset: usize) -> bool
    ensures { result ≡ has_quote text.now offset }
{
    match text.as_bytes().get(offset) {
        Some(byte) => is_quote(*byte),
        None => false,
    }
}

/// Whether a byte is a quote.
fn is_quote(byte: u8) -> bool
    ensures { result ≡ is_quote byte }
{
    byte == b'"' || byte == b'\''
}

/// The keyword that ends at this offset of the text, if one does.
fn keyword_before(text: &str, offset: usize) -> Option<&'static str>
    ensures { option_map (λ keyword. keyword.now) result ≡ keyword_before text.now offset }
{
    let bytes = text.as_bytes();
    let (before, _) = bytes.split_at(bytes.len().min(offset));
    keyword_at_end(before)
}

/// The keyword of a list of names with which a text ends, if it ends with one.
#[tactic(auto, unfolding(crate::specs::Glued::keyword_at_end))]
fn keyword_at_end(before: &[u8]) -> Option<&'static str>
    ensures { option_map (λ keyword. keyword.now) result ≡ keyword_at_end before.now }
{
    if ends_with(before, "%token") {
        Some("%token")
    } else if ends_with(before, "%left") {
        Some("%left")
    } else if ends_with(before, "%right") {
        Some("%right")
    } else if ends_with(before, "%nonassoc") {
        Some("%nonassoc")
    } else if ends_with(before, "%avoid_insert") {
        Some("%avoid_insert")
    } else if ends_with(before, "%implicit_tokens") {
        Some("%implicit_tokens")
    } else {
        None
    }
}

/// Whether the bytes end with the word.
fn ends_with(before: &[u8], word: &str) -> bool
    ensures { result ≡ ends_with (λ a b. a == b) before.now word.now }
{
    before.ends_with(word.as_bytes())
}
