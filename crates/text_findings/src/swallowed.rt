//! Rules whose type goes on to the type of the next rule, since no `:` ends it.

ghost use Rattle.std.specs.Prelude.{◌≡◌, ◌++◌, false, length, option_map, slice_get, IfOk, OnOk};
ghost use Rattle.std.specs.Option.{option_map_or};
ghost use Rattle.cfgrammar.specs.TreeView.{syntax};
ghost use Rattle.cfgrammar.specs.SyntaxView.{rule_view};
ghost use Rattle.text_findings.specs.Reports.{ReportsBelow};
ghost use Rattle.text_findings.specs.Swallowed.{ReportsSwallowed, goes_on, has_open_arrow, swallowed};

use crate::finding::{Finding, FindingKind};
use crate::reporter::{Reporter, push_reported};
use cfgrammar::yacc::ast::{GrammarAST, Rule};
use constructs::split_at_first;
use std::alloc::{AllocError, Global};

/// Adds the rules whose type goes on to the type of the next rule to the findings.
pub(crate) fn push_swallowed(
    alloc: Global,
    all: &mut Vec<Finding>,
    ast: &GrammarAST,
) -> Result<(), AllocError>
    ensures { OnOk result ((reported : _) × ReportsBelow (ReportsSwallowed (syntax ast.now))
        (length (syntax ast.now).rules) reported × (all.new.items ≡ all.old.items ++ reported)) }
{
    push_reported(alloc, all, &SwallowedRules(ast), ast.rules().len())
}

/// Reports rules whose type goes on to the type of the next rule.
#[derive(Drop)]
struct SwallowedRules<'a>(&'a GrammarAST);

impl Reporter for SwallowedRules<'_> {
    ghost use Rattle.std.specs.Prelude.{length};
    ghost use Rattle.cfgrammar.specs.TreeView.{syntax};
    ghost use Rattle.text_findings.specs.Swallowed.{ReportsSwallowed};

    ghost count = { λ x. length (syntax x.0.now).rules };

    ghost reports = { λ x. ReportsSwallowed (syntax x.0.now) };

    fn report(&self, alloc: Global, number: usize) -> Result<Option<Finding>, AllocError> {
        match rule_at(self.0, number) {
            Some((name, rule)) => swallowed(alloc, name, rule),
            None => Ok(None),
        }
    }
}

/// The rule with this number, and its name.
fn rule_at(ast: &GrammarAST, number: usize) -> Option<(&str, &Rule)>
    ensures { option_map (λ rule. (rule.0.now, rule_view rule.1.now)) result
        ≡ slice_get (syntax ast.now).rules number }
{
    let (name, rule) = ast.rules().get_index(number)?;
    Some((name.as_str(), rule))
}

/// The finding that the type of the rule with this name goes on to the type of the next rule, if it does.
fn swallowed(alloc: Global, name: &str, rule: &Rule) -> Result<Option<Finding>, AllocError>
    ensures { IfOk result (λ found. found ≡ swallowed (name.now, rule_view rule.now)) }
{
    if !type_goes_on(rule) {
        return Ok(None);
    }
    let text = format!(in alloc;
        "The type of rule '{name}' goes on over a ';' and a '->': a ':' may be missing after the type"
    )?;
    Ok(Some(Finding::at(alloc, FindingKind::SwallowedRule, rule.name.1, text)?))
}

/// Whether the rule has a type, and that goes on to the type of the next rule.
fn type_goes_on(rule: &Rule) -> bool
    ensures { result ≡ option_map_or goes_on (rule_view rule.now).action_type false }
{
    match &rule.actiont {
        Some(actiont) => goes_on(actiont),
        None => false,
    }
}

/// Whether a `->` comes after a `;` of the type, without a `]` or another `;` between the two.
fn goes_on(actiont: &str) -> bool
    ensures { result ≡ goes_on actiont.now }
{
    actiont
        .split(';')
        .skip(1)
        .any(|piece| has_open_arrow(piece))
}

/// Whether the text has a `->`, and no `]` before the first one.
fn has_open_arrow(text: &str) -> bool
    ensures { result ≡ has_open_arrow text.now }
{
    match split_at_first(text, "->") {
        Some((before, _)) => !before.as_bytes().contains(&b']'),
        None => false,
    }
}
