//! Unproductive rules.

ghost use Rattle.std.specs.Prelude.{◌≡◌, ◌++◌, ◌&&◌, ◌==◌, ◌<◌, ◌≤◌, ◌∷◌, ℕ, IfOk, List, None, Some, length, map, not};
ghost use Rattle.std.specs.Prelude.{MatchBool, MatchOption, OnOk, nat_le, string_bytes};
ghost use Rattle.std.specs.List.{filter};
ghost use Rattle.cfgrammar.specs.Accessors.{rule_part};
ghost use Rattle.cfgrammar.specs.TreeView.{syntax};
ghost use Rattle.cfgfindings.specs.Findings.{AreOthers, IsFirstOfSinkGroup, IsUnproductiveRule};
ghost use Rattle.cfgfindings.specs.Findings.{ReportsBelow, ReportsNoSentence, ReportsUnusableRule};
ghost use Rattle.cfgfindings.specs.Findings.{rules_added as added};
ghost use Rattle.cfgfindings.specs.Inner.SinkGroups.{AreGroupOf};
ghost use Rattle.cfgfindings.specs.Shown.{ShownFinding, rule_span};

use crate::added::rules_added;
use crate::cyclic_rules::name_spans;
use crate::names::is_start;
use crate::sentences::Unproductive;
use crate::sink_groups::SinkGroups;
use cfgrammar::RIdx;
use cfgrammar::storage::to_storage;
use cfgrammar::yacc::YaccGrammar;
use cfgrammar::yacc::ast::GrammarAST;
use std::alloc::{AllocError, Global};
use text_findings::{Finding, FindingKind, Reporter, push_reported};

/// Adds the unproductive start rule and the sink groups to the findings, and then the other unproductive rules of
/// the file.
pub(crate) fn push_unproductive(
    alloc: Global,
    all: &mut Vec<Finding>,
    ast: &GrammarAST,
    unproductive: &Unproductive<'_>,
) -> Result<(), AllocError>
    ensures { OnOk result ((unproductive_rules unusable_rules : List ShownFinding)
        × ReportsBelow (ReportsNoSentence (syntax ast.now) unproductive.now) (length unproductive.now.rules)
        unproductive_rules
        × ReportsBelow (ReportsUnusableRule (syntax ast.now) unproductive.now) (length unproductive.now.rules)
        unusable_rules
        × (all.new.items ≡ all.old.items ++ (unproductive_rules ++ unusable_rules))) }
{
    let count = usize::from(unproductive.grammar().rules_len());
    let sink_groups = &SinkGroups::new(alloc, unproductive)?;
    push_reported(alloc, all, &UnproductiveRules { ast, sink_groups }, count)?;
    push_reported(alloc, all, &UnusableRules { ast, sink_groups }, count)
}

/// The name of the rule, if it is an unproductive rule of the file.
fn unproductive_name<'a>(unproductive: &'a Unproductive<'_>, number: usize) -> Option<&'a str>
    requires { number < length unproductive.now.rules }
    ensures { MatchOption result (IsUnproductiveRule unproductive.now number → ⊥)
        (λ name. IsUnproductiveRule unproductive.now number
        × (rule_part (λ rule. rule.name) unproductive.now number ≡ Some name.now)) }
{
    let grammar = unproductive.grammar();
    grammar.invariant_holds();
    let rule = RIdx(to_storage(number));
    if number < rules_added(grammar) || !unproductive.contains(rule) {
        return None;
    }
    Some(grammar.rule_name_str(rule))
}

/// Whether the rule, which has this group, is in a sink group and its first rule of the file, and the group doesn't
/// have the start rule.
fn is_first_of_sink_group(
    grammar: &YaccGrammar<u32>,
    ast: &GrammarAST,
    rule: usize,
    group: &[usize],
) -> bool
    requires ours { added grammar.now ≤ rule }
    requires group { AreGroupOf grammar.now rule group.now }
    ensures { MatchBool result (IsFirstOfSinkGroup (syntax ast.now) grammar.now rule)
        (IsFirstOfSinkGroup (syntax ast.now) grammar.now rule → ⊥) }
{
    let first = rules_added(grammar);
    grammar.invariant_holds();
    for other in group {
        if first <= *other
            && (*other < rule || is_start(ast, grammar.rule_name_str(RIdx(to_storage(*other)))))
        {
            return false;
        }
    }
    !group.is_empty()
}

/// A finding at the rule, and at the other rules of the file in its group.
fn with_others(
    alloc: Global,
    grammar: &YaccGrammar<u32>,
    kind: FindingKind,
    rule: usize,
    group: &[usize],
    text: String,
) -> Result<Finding, AllocError>
    requires rule { rule < length grammar.now.rules }
    requires group { AreGroupOf grammar.now rule group.now }
    ensures { IfOk result (λ finding. (others : List ℕ) × AreOthers grammar.now rule others
        × (finding ≡ record {
          kind = kind;
          spans = map (rule_span grammar.now) (rule ∷ others);
          text = string_bytes text;
          hint = None;
        })) }
{
    let others = others_of(alloc, rules_added(grammar), rule, group)?;
    let mut spans = name_spans(alloc, grammar, &[rule])?;
    spans.extend_from_slice(&name_spans(alloc, grammar, &others)?)?;
    Ok(Finding::new(kind, spans, text))
}

/// Those of the rules that come from the first one on, except for this rule.
fn others_of(
    alloc: Global,
    first: usize,
    rule: usize,
    group: &[usize],
) -> Result<Vec<usize>, AllocError>
    ensures { IfOk result (λ others. others.items
        ≡ filter (λ other. nat_le first other && not (other == rule)) group.now) }
{
    group
        .iter()
        .copied()
        .filter(|other| first <= *other && *other != rule)
        .collect(alloc)
}

/// Reports each sink group, as the finding for its first rule, and the unproductive start rule.
#[derive(Drop)]
struct UnproductiveRules<'a, 'g> {
    ast: &'a GrammarAST,
    sink_groups: &'g SinkGroups<'g>,
}

impl<'a, 'g> Reporter for UnproductiveRules<'a, 'g> {
    ghost use Rattle.std.specs.Prelude.{length};
    ghost use Rattle.cfgrammar.specs.TreeView.{syntax};
    ghost use Rattle.cfgfindings.specs.Findings.{ReportsNoSentence};

    ghost count = { λ x. length x.sink_groups.now.rules };

    ghost reports = { λ x. ReportsNoSentence (syntax x.ast.now) x.sink_groups.now };

    fn report(&self, alloc: Global, number: usize) -> Result<Option<Finding>, AllocError> {
        let unproductive = self.sink_groups.unproductive();
        let grammar = unproductive.grammar();
        let Some(name) = unproductive_name(unproductive, number) else {
            return Ok(None);
        };
        let group = self.sink_groups.group(number);
        if is_start(self.ast, name) {
            let text = format!(in alloc;
                "No sentence can be derived from the start rule '{name}'"
            )?;
            let kind = FindingKind::StartWithoutSentence;
            return Ok(Some(with_others(alloc, grammar, kind, number, group, text)?));
        }
        if !is_first_of_sink_group(grammar, self.ast, number, group) {
            return Ok(None);
        }
        let text = format!(in alloc; "Rule '{name}' has no sentence")?;
        let kind = FindingKind::NoSentence;
        Ok(Some(with_others(alloc, grammar, kind, number, group, text)?))
    }
}

/// Reports the other unproductive rules.
#[derive(Drop)]
struct UnusableRules<'a, 'g> {
    ast: &'a GrammarAST,
    sink_groups: &'g SinkGroups<'g>,
}

impl<'a, 'g> Reporter for UnusableRules<'a, 'g> {
    ghost use Rattle.std.specs.Prelude.{length};
    ghost use Rattle.cfgrammar.specs.TreeView.{syntax};
    ghost use Rattle.cfgfindings.specs.Findings.{ReportsUnusableRule};

    ghost count = { λ x. length x.sink_groups.now.rules };

    ghost reports = { λ x. ReportsUnusableRule (syntax x.ast.now) x.sink_groups.now };

    fn report(&self, alloc: Global, number: usize) -> Result<Option<Finding>, AllocError> {
        let unproductive = self.sink_groups.unproductive();
        let grammar = unproductive.grammar();
        grammar.invariant_holds();
        let Some(name) = unproductive_name(unproductive, number) else {
            return Ok(None);
        };
        if is_start(self.ast, name) || !self.sink_groups.group(number).is_empty() {
            return Ok(None);
        }
        let text = format!(in alloc;
            "Unusable rule '{name}': each of its productions has a rule without a sentence"
        )?;
        let span = grammar.rule_name_span(RIdx(to_storage(number)));
        Ok(Some(Finding::at(alloc, FindingKind::UnusableRule, span, text)?))
    }
}
