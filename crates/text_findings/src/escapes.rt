//! Tokens whose names begin with a backslash.

ghost use Rattle.std.specs.Prelude.{◌≡◌, ◌++◌, length, IfOk, OnOk};
ghost use Rattle.cfgrammar.specs.TreeView.{syntax};
ghost use Rattle.text_findings.specs.Reports.{ReportsBelow};
ghost use Rattle.text_findings.specs.Escapes.{ReportsEscaped, escaped, is_escape};

use crate::finding::{Finding, FindingKind};
use crate::reporter::{Reporter, push_reported};
use crate::words::token_at;
use cfgrammar::Span;
use cfgrammar::yacc::ast::GrammarAST;
use std::alloc::{AllocError, Global};

/// Adds a finding for each token whose name begins with a backslash and has more characters.
pub fn push_escaped(
    alloc: Global,
    all: &mut Vec<Finding>,
    ast: &GrammarAST,
) -> Result<(), AllocError>
    ensures { OnOk result ((reported : _) × ReportsBelow (ReportsEscaped (syntax ast.now))
        (length (syntax ast.now).tokens) reported × (all.new.items ≡ all.old.items ++ reported)) }
{
    push_reported(alloc, all, &EscapedTokens(ast), ast.tokens().len())
}

/// Reports tokens whose names begin with a backslash.
#[derive(Drop)]
struct EscapedTokens<'a>(&'a GrammarAST);

impl Reporter for EscapedTokens<'_> {
    ghost use Rattle.std.specs.Prelude.{length};
    ghost use Rattle.cfgrammar.specs.TreeView.{syntax};
    ghost use Rattle.text_findings.specs.Escapes.{ReportsEscaped};

    ghost count = { λ x. length (syntax x.0.now).tokens };

    ghost reports = { λ x. ReportsEscaped (syntax x.0.now) };

    fn report(&self, alloc: Global, number: usize) -> Result<Option<Finding>, AllocError> {
        match token_at(self.0, number) {
            Some((name, span)) => escaped(alloc, name, span),
            None => Ok(None),
        }
    }
}

/// The finding that the name of the token at the span begins with a backslash, if it does and goes on after it.
fn escaped(alloc: Global, name: &str, span: Span) -> Result<Option<Finding>, AllocError>
    ensures { IfOk result (λ found. found ≡ escaped (record { name = name.now; span = span })) }
{
    if !is_escape(name) {
        return Ok(None);
    }
    let text = format!(in alloc;
        "Token '{name}' begins with a backslash: a quoted text has no escapes"
    )?;
    Ok(Some(Finding::at(alloc, FindingKind::EscapedToken, span, text)?))
}

/// Whether the name begins with a backslash and goes on after it.
fn is_escape(name: &str) -> bool
    ensures { result ≡ is_escape name.now }
{
    match name.as_bytes() {
        [first, _, ..] => *first == b'\\',
        [_] | [] => false,
    }
}
