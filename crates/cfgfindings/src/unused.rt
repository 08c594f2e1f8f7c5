//! Unused rules and tokens, and rules whose name is that of a token.

ghost use Rattle.std.specs.Prelude.{◌≡◌, ◌++◌, ◌<◌, List, Some, length, option_map, slice_get, IfOk};
ghost use Rattle.std.specs.Prelude.{MatchBool, MatchOption, OnOk};
ghost use Rattle.cfgrammar.specs.Span.{Span};
ghost use Rattle.cfgrammar.specs.SyntaxView.{rule_view};
ghost use Rattle.cfgrammar.specs.TreeView.{syntax};
ghost use Rattle.cfgfindings.specs.Findings.{IsShadowed};
ghost use Rattle.cfgfindings.specs.Findings.{ReportsBelow, ReportsShadowedRule, ReportsUnusedRule, ReportsUnusedToken};
ghost use Rattle.cfgfindings.specs.Inner.Marks.{rule_keys};
ghost use Rattle.cfgfindings.specs.Inner.Shadowing.{GivesWay};
ghost use Rattle.cfgfindings.specs.Shown.{ShownFinding};

use crate::marks::{contained_rules, requested_tokens};
use crate::names::{is_declared, is_start, token_index};
use cfgrammar::yacc::ast::{GrammarAST, Rule};
use cfgrammar::{Span, Vob};
use std::alloc::{AllocError, Global};
use std::marker::Model;
use text_findings::{Finding, FindingKind, Reporter, push_reported};

/// Adds the unused rules to the findings, then the unused tokens, and then the shadowed rules.
///
/// # Errors
///
/// Out of memory.
pub(crate) fn push_unused(
    alloc: Global,
    all: &mut Vec<Finding>,
    ast: &GrammarAST,
) -> Result<(), AllocError>
    ensures { OnOk result ((rules tokens shadowed : List ShownFinding)
        × ReportsBelow (ReportsUnusedRule (syntax ast.now)) (length (syntax ast.now).rules) rules
        × ReportsBelow (ReportsUnusedToken (syntax ast.now)) (length (syntax ast.now).tokens) tokens
        × ReportsBelow (ReportsShadowedRule (syntax ast.now)) (length (syntax ast.now).rules) shadowed
        × (all.new.items ≡ all.old.items ++ (rules ++ (tokens ++ shadowed)))) }
{
    let usage = Usage::new(alloc, ast)?;
    push_reported(alloc, all, &UnusedRules(&usage), ast.rules().len())?;
    push_reported(alloc, all, &UnusedTokens(&usage), ast.tokens().len())?;
    push_reported(alloc, all, &ShadowedRules(&usage), ast.rules().len())
}

/// A tree, and where its rules and tokens are used.
#[derive(Drop)]
struct Usage<'a> {
    ast: &'a GrammarAST,
    /// For each rule, and then for each token, whether it is unused.
    unused: Vec<bool>,
    /// For each rule, whether a production contains it.
    contained: Vob,
    /// For each token, whether a production's `%prec` names it.
    requested: Vob,
}

impl<'a> Model for Usage<'a> {
    ghost use Rattle.cfgrammar.specs.Syntax.{Syntax};
    ghost use Rattle.cfgrammar.specs.TreeView.{syntax};
    ghost use Rattle.cfgrammar.specs.Unused.{AreUnused};
    ghost use Rattle.cfgfindings.specs.Findings.{IsContained, IsRequested};
    ghost use Rattle.cfgfindings.specs.Inner.Marks.{AreMarked, rule_keys};

    ghost Value = { Syntax };

    ghost view = { λ x. syntax x.ast.now };

    ghost invariant = { λ x. AreUnused (syntax x.ast.now) x.unused.items
        × AreMarked (rule_keys (syntax x.ast.now)) (IsContained (syntax x.ast.now)) x.contained
        × AreMarked (syntax x.ast.now).tokens (IsRequested (syntax x.ast.now)) x.requested };
}

impl<'a> Usage<'a> {
    /// Finds out where the rules and tokens of the tree are used.
    fn new(alloc: Global, ast: &'a GrammarAST) -> Result<Self, AllocError>
        ensures { IfOk result (λ x. x ≡ syntax ast.now) }
    {
        let unused = ast.unused(alloc)?;
        let contained = contained_rules(alloc, ast)?;
        let requested = requested_tokens(alloc, ast)?;
        Ok(Usage {
            ast,
            unused,
            contained,
            requested,
        })
    }

    /// The rule with this number, and its name.
    fn rule(&self, number: usize) -> Option<(&'a str, &'a Rule)>
        ensures { option_map (λ rule. (rule.0.now, rule_view rule.1.now)) result ≡ slice_get self.now.rules number }
    {
        let (name, rule) = self.ast.rules().get_index(number)?;
        Some((name.as_str(), rule))
    }

    /// The span of the token that shadows this rule, if one does.
    fn shadowing(&self, number: usize, name: &str) -> Option<Span>
        requires { slice_get (rule_keys self.now) number ≡ Some name.now }
        ensures { MatchOption result ((span : Span) → IsShadowed self.now name.now span → ⊥)
            (IsShadowed self.now name.now) }
    {
        let token = token_index(self.ast, name)?;
        if !self.gives_way(number, name, token) {
            return None;
        }
        let span = self.ast.spans().get(token)?;
        Some(*span)
    }

    /// Whether the rule gives way to the token.
    fn gives_way(&self, number: usize, name: &str, token: usize) -> bool
        requires { slice_get (rule_keys self.now) number ≡ Some name.now }
        ensures { MatchBool result (GivesWay self.now name.now token) (GivesWay self.now name.now token → ⊥) }
    {
        if self.contained.get(number).unwrap_or(false) {
            return false;
        }
        if is_start(self.ast, name) {
            return is_declared(self.ast, token);
        }
        true
    }
}

/// Reports unused rules.
#[derive(Drop)]
struct UnusedRules<'a>(&'a Usage<'a>);

impl<'a> Reporter for UnusedRules<'a> {
    ghost use Rattle.std.specs.Prelude.{length};
    ghost use Rattle.cfgfindings.specs.Findings.{ReportsUnusedRule};

    ghost count = { λ x. length x.0.now.rules };

    ghost reports = { λ x. ReportsUnusedRule x.0.now };

    fn report(&self, alloc: Global, number: usize) -> Result<Option<Finding>, AllocError> {
        let usage = self.0;
        let Some((name, rule)) = usage.rule(number) else {
            return Ok(None);
        };
        if !usage.unused[number] {
            return Ok(None);
        }
        if let Some(_token) = usage.shadowing(number, name) {
            return Ok(None);
        }
        let text = format!(in alloc; "Unused rule '{name}'")?;
        Ok(Some(Finding::at(alloc, FindingKind::UnusedRule, rule.name.1, text)?))
    }
}

/// Reports unused tokens.
#[derive(Drop)]
struct UnusedTokens<'a>(&'a Usage<'a>);

impl<'a> Reporter for UnusedTokens<'a> {
    ghost use Rattle.std.specs.Prelude.{length};
    ghost use Rattle.cfgfindings.specs.Findings.{ReportsUnusedToken};

    ghost count = { λ x. length x.0.now.tokens };

    ghost reports = { λ x. ReportsUnusedToken x.0.now };

    fn report(&self, alloc: Global, number: usize) -> Result<Option<Finding>, AllocError> {
        let usage = self.0;
        let is_unused = usage.unused[usage.ast.rules().len() + number];
        if !is_unused || usage.requested.get(number).unwrap_or(false) {
            return Ok(None);
        }
        let Some(name) = usage.ast.tokens().get_index(number) else {
            return Ok(None);
        };
        let Some(span) = usage.ast.spans().get(number) else {
            return Ok(None);
        };
        let text = format!(in alloc; "Unused token '{name}'")?;
        Ok(Some(Finding::at(alloc, FindingKind::UnusedToken, *span, text)?))
    }
}

/// Reports shadowed rules.
#[derive(Drop)]
struct ShadowedRules<'a>(&'a Usage<'a>);

impl<'a> Reporter for ShadowedRules<'a> {
    ghost use Rattle.std.specs.Prelude.{length};
    ghost use Rattle.cfgfindings.specs.Findings.{ReportsShadowedRule};

    ghost count = { λ x. length x.0.now.rules };

    ghost reports = { λ x. ReportsShadowedRule x.0.now };

    fn report(&self, alloc: Global, number: usize) -> Result<Option<Finding>, AllocError> {
        let usage = self.0;
        let Some((name, rule)) = usage.rule(number) else {
            return Ok(None);
        };
        let Some(token) = usage.shadowing(number, name) else {
            return Ok(None);
        };
        let text = format!(in alloc; "Rule '{name}' is never used: its name is that of a token")?;
        Ok(Some(Finding::at_both(alloc, FindingKind::ShadowedRule, rule.name.1, token, text)?))
    }
}
