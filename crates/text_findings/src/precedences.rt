//! Productions whose `%prec` names a token without a precedence.

ghost use Rattle.std.specs.Prelude.{◌≡◌, ◌++◌, length, IfOk, OnOk};
ghost use Rattle.cfgrammar.specs.Building.{has_entry};
ghost use Rattle.cfgrammar.specs.TreeView.{syntax};
ghost use Rattle.cfgrammar.specs.SyntaxView.{production_view};
ghost use Rattle.text_findings.specs.Precedences.{ReportsUndefinedPrecedence, undefined_precedence};
ghost use Rattle.text_findings.specs.Reports.{ReportsBelow};

use crate::finding::{Finding, FindingKind};
use crate::reporter::{Reporter, push_reported};
use cfgrammar::yacc::ast::{GrammarAST, Production};
use std::alloc::{AllocError, Global};

/// Adds the productions whose `%prec` names a token without a precedence to the findings.
pub(crate) fn push_undefined_precedences(
    alloc: Global,
    all: &mut Vec<Finding>,
    ast: &GrammarAST,
) -> Result<(), AllocError>
    ensures { OnOk result ((reported : _) × ReportsBelow (ReportsUndefinedPrecedence (syntax ast.now))
        (length (syntax ast.now).productions) reported × (all.new.items ≡ all.old.items ++ reported)) }
{
    push_reported(alloc, all, &UndefinedPrecedences { ast }, ast.prods().len())
}

/// Reports productions whose `%prec` names a token without a precedence.
#[derive(Drop)]
struct UndefinedPrecedences<'a> {
    ast: &'a GrammarAST,
}

impl Reporter for UndefinedPrecedences<'_> {
    ghost use Rattle.std.specs.Prelude.{length};
    ghost use Rattle.cfgrammar.specs.TreeView.{syntax};
    ghost use Rattle.text_findings.specs.Precedences.{ReportsUndefinedPrecedence};

    ghost count = { λ x. length (syntax x.ast.now).productions };

    ghost reports = { λ x. ReportsUndefinedPrecedence (syntax x.ast.now) };

    fn report(&self, alloc: Global, number: usize) -> Result<Option<Finding>, AllocError> {
        match self.ast.prods().get(number) {
            Some(production) => undefined_precedence(alloc, self.ast, production),
            None => Ok(None),
        }
    }
}

/// The finding that the `%prec` of a production names a token without a precedence, if that is true.
fn undefined_precedence(
    alloc: Global,
    ast: &GrammarAST,
    production: &Production,
) -> Result<Option<Finding>, AllocError>
    ensures { IfOk result (λ found. found
        ≡ undefined_precedence (syntax ast.now) (production_view production.now)) }
{
    let Some(name) = &production.precedence else {
        return Ok(None);
    };
    if has_precedence(ast, name) {
        return Ok(None);
    }
    let text = format!(in alloc;
        "Undefined precedence: no %left, %right, %nonassoc or %precedence names token '{name}'"
    )?;
    let span = production.prod_span;
    Ok(Some(Finding::at(alloc, FindingKind::UndefinedPrecedence, span, text)?))
}

/// Whether the token with this name has a precedence.
pub fn has_precedence(ast: &GrammarAST, name: &str) -> bool
    ensures { result ≡ has_entry name.now (syntax ast.now).tables.precedences }
{
    ast.precs().contains_key(name)
}
