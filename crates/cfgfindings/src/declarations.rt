//! Findings about what a file says again, and so in vain: tokens of `%token` lists, and `%prec`s.

ghost use Rattle.std.specs.Prelude.{◌≡◌, ◌++◌, map, OnOk};
ghost use Rattle.cfgrammar.specs.SyntaxView.{named_view};
ghost use Rattle.cfgrammar.specs.TreeView.{syntax};
ghost use Rattle.cfgfindings.specs.Shown.{at_word, overridden_precedence, repeated_token};

use cfgrammar::Span;
use cfgrammar::yacc::ast::GrammarAST;
use std::alloc::{AllocError, Global};
use text_findings::{Finding, FindingKind};

/// Adds a finding for each token that a `%token` list has again, and then for each `%prec` that a later one overrides.
pub(crate) fn push_declarations(
    alloc: Global,
    all: &mut Vec<Finding>,
    ast: &GrammarAST,
) -> Result<(), AllocError>
    ensures { OnOk result (all.new.items ≡ all.old.items ++ (map repeated_token (syntax ast.now).repeated_tokens
        ++ map overridden_precedence (syntax ast.now).overridden_precedences)) }
{
    let before = "Repeated token ";
    let after = ": a %token list has it before";
    let repeated = FindingKind::RepeatedToken;
    push_named(alloc, all, repeated, ast.repeated_tokens(), before, after)?;
    let before =
        "Overridden precedence: a later %prec of the production counts, and not that of token ";
    let overridden = FindingKind::OverriddenPrecedence;
    push_named(
        alloc,
        all,
        overridden,
        ast.overridden_precedences(),
        before,
        "",
    )
}

/// Adds a finding of this kind at each of these names, which its text has between `before` and `after`.
fn push_named(
    alloc: Global,
    all: &mut Vec<Finding>,
    kind: FindingKind,
    named: &[(String, Span)],
    before: &str,
    after: &str,
) -> Result<(), AllocError>
    ensures { OnOk result (all.new.items
        ≡ all.old.items ++ map (at_word kind before.now after.now) (map named_view named.now)) }
{
    for (name, span) in named {
        let text = format!(in alloc; "{before}'{name}'{after}")?;
        all.push(Finding::at(alloc, kind, *span, text)?)?;
    }
    Ok(())
}
