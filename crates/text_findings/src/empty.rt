//! Productions without symbols that don't say so, in any file, and in one where others do.

ghost use Rattle.std.specs.Prelude.{◌≡◌, ◌++◌, length, map, option_map, IfOk, OnOk};
ghost use Rattle.std.specs.List.{list_any, starts_with};
ghost use Rattle.cfgrammar.specs.TreeView.{syntax};
ghost use Rattle.cfgrammar.specs.SyntaxView.{production_view};
ghost use Rattle.text_findings.specs.Reports.{ReportsBelow};
ghost use Rattle.text_findings.specs.Empty.{ReportsImplicitlyEmpty, ReportsMissingEmpty, begins_at, implicitly_empty};
ghost use Rattle.text_findings.specs.Empty.{is_action_name, is_implicitly_empty, is_of_action, rule_name_at};
ghost use Rattle.text_findings.specs.Empty.{says_empty};

use crate::finding::{Finding, FindingKind};
use crate::reporter::{Reporter, push_reported};
use cfgrammar::yacc::ast::{GrammarAST, Production};
use std::alloc::{AllocError, Global};

/// Adds the productions without symbols that don't say so to the findings.
pub fn push_implicitly_empty(
    alloc: Global,
    all: &mut Vec<Finding>,
    text: &str,
    ast: &GrammarAST,
) -> Result<(), AllocError>
    ensures { OnOk result ((reported : _) × ReportsBelow (ReportsImplicitlyEmpty text.now (syntax ast.now))
        (length (syntax ast.now).productions) reported × (all.new.items ≡ all.old.items ++ reported)) }
{
    let reporter = ImplicitlyEmpty {
        text,
        ast,
        kind: FindingKind::ImplicitEmpty,
        words: "Empty production without %empty",
    };
    push_reported(alloc, all, &reporter, ast.prods().len())
}

/// Adds the productions without symbols that don't say so to the findings, if another production says so.
pub(crate) fn push_missing_empty(
    alloc: Global,
    all: &mut Vec<Finding>,
    text: &str,
    ast: &GrammarAST,
) -> Result<(), AllocError>
    ensures { OnOk result ((reported : _) × ReportsBelow (ReportsMissingEmpty text.now (syntax ast.now))
        (length (syntax ast.now).productions) reported × (all.new.items ≡ all.old.items ++ reported)) }
{
    if is_said(text, ast.prods()) {
        let reporter = ImplicitlyEmpty {
            text,
            ast,
            kind: FindingKind::MissingEmpty,
            words: "Empty production without %empty, which another one has",
        };
        push_reported(alloc, all, &reporter, ast.prods().len())
    } else {
        Ok(())
    }
}

/// Reports productions without symbols that don't say so.
#[derive(Drop)]
struct ImplicitlyEmpty<'a> {
    text: &'a str,
    ast: &'a GrammarAST,
    kind: FindingKind,
    words: &'a str,
}

impl Reporter for ImplicitlyEmpty<'_> {
    ghost use Rattle.std.specs.Prelude.{◌≡◌, length};
    ghost use Rattle.cfgrammar.specs.TreeView.{syntax};
    ghost use Rattle.text_findings.specs.Empty.{empty_finding};

    ghost count = { λ x. length (syntax x.ast.now).productions };

    ghost reports = { λ x n found. found ≡ empty_finding x.kind x.words.now x.text.now (syntax x.ast.now) n };

    fn report(&self, alloc: Global, number: usize) -> Result<Option<Finding>, AllocError> {
        if is_of_action(self.ast, number) {
            return Ok(None);
        }
        match self.ast.prods().get(number) {
            Some(production) => self.implicitly_empty(alloc, production),
            None => Ok(None),
        }
    }
}

impl ImplicitlyEmpty<'_> {
    /// The finding that a production has no symbols and doesn't say so, if that is true.
    fn implicitly_empty(
        &self,
        alloc: Global,
        production: &Production,
    ) -> Result<Option<Finding>, AllocError>
        ensures { IfOk result (λ found. found
            ≡ implicitly_empty self.now.kind self.now.words.now self.now.text.now (production_view production.now)) }
    {
        if !is_implicitly_empty(self.text, production) {
            return Ok(None);
        }
        let words = String::from_str(alloc, self.words)?;
        Ok(Some(Finding::at(alloc, self.kind, production.prod_span, words)?))
    }
}

/// Whether a production without symbols says that it has none.
fn is_said(text: &str, productions: &[Production]) -> bool
    ensures { result ≡ list_any (says_empty text.now) (map production_view productions.now) }
{
    for production in productions {
        if says_empty(text, production) {
            return true;
        }
    }
    false
}

/// Whether a production has no symbols, and its text begins with `%empty`.
fn says_empty(text: &str, production: &Production) -> bool
    ensures { result ≡ says_empty text.now (production_view production.now) }
{
    production.symbols.is_empty() && begins_at(text, production.prod_span.start(), "%empty")
}

/// Whether the production with this number is that of an action inside of another one.
fn is_of_action(ast: &GrammarAST, number: usize) -> bool
    ensures { result ≡ is_of_action (syntax ast.now) number }
{
    match rule_name_at(ast, number) {
        Some(name) => is_action_name(name),
        None => false,
    }
}

/// The name of the rule of the production with this number.
pub(crate) fn rule_name_at(ast: &GrammarAST, number: usize) -> Option<&str>
    ensures { option_map (λ name. name.now) result ≡ rule_name_at (syntax ast.now) number }
{
    let rule = ast.prods_rules().get(number)?;
    let (name, _) = ast.rules().get_index(*rule)?;
    Some(name.as_str())
}

/// Whether a rule with this name is that of an action inside of a production.
pub(crate) fn is_action_name(name: &str) -> bool
    ensures { result ≡ is_action_name name.now }
{
    name.as_bytes().starts_with(b"$@")
}

/// Whether a production has no symbols, and its text begins neither with `%empty` nor with `%prec`.
fn is_implicitly_empty(text: &str, production: &Production) -> bool
    ensures { result ≡ is_implicitly_empty text.now (production_view production.now) }
{
    if !production.symbols.is_empty() {
        return false;
    }
    let start = production.prod_span.start();
    !begins_at(text, start, "%empty") && !begins_at(text, start, "%prec")
}

/// Whether the text goes on with the word at this offset.
fn begins_at(text: &str, offset: usize, word: &str) -> bool
    ensures { result ≡ begins_at text.now offset word.now }
{
    let bytes = text.as_bytes();
    let (_, rest) = bytes.split_at(bytes.len().min(offset));
    rest.starts_with(word.as_bytes())
}
