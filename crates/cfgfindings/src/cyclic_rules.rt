//! Cyclic rules.

ghost use Rattle.std.specs.Prelude.{◌≡◌, ◌++◌, ◌<◌, All, IfOk, OnOk, Some, length, map, nat_le};
ghost use Rattle.std.specs.Prelude.{string_bytes};
ghost use Rattle.std.specs.List.{filter, flat_map};
ghost use Rattle.cfgrammar.specs.Accessors.{IsSymbolWithin};
ghost use Rattle.cfgrammar.specs.CyclicGroups.{IsGroup};
ghost use Rattle.cfgrammar.specs.Numbered.{core};
ghost use Rattle.cfgrammar.specs.NumberedSymbols.{sym_of};
ghost use Rattle.cfgrammar.specs.UnitSteps.{AreSteps, IsStep};
ghost use Rattle.cfgfindings.specs.Findings.{ReportsBelow, ReportsGroup, rules_added as added};
ghost use Rattle.cfgfindings.specs.Inner.CyclicRules.{AreOwnGroups, IsSomeStep};
ghost use Rattle.cfgfindings.specs.Shown.{cyclic_finding, rule_span, step_text, nullable};

use crate::added::rules_added;
use cfgrammar::laws::unit_steps_are_derivations;
use cfgrammar::storage::to_storage;
use cfgrammar::yacc::YaccGrammar;
use cfgrammar::yacc::cycles::{
    CyclicGroup, Steps, UnitStep, cyclic_groups, shortest_cycle, unit_steps,
};
use cfgrammar::{PIdx, RIdx, Span, Symbol};
use std::alloc::{AllocError, Global};
use std::marker::Model;
use text_findings::{Finding, FindingKind, Reporter, push_reported, symbol_name};

/// Adds the groups of cyclic rules to the findings, each with a shortest path of steps from its first rule of the file
/// to itself.
pub(crate) fn push_cycles(
    alloc: Global,
    all: &mut Vec<Finding>,
    grammar: &YaccGrammar<u32>,
) -> Result<(), AllocError>
    ensures { OnOk result ((reported : _) × ReportsBelow (ReportsGroup grammar.now) (length grammar.now.rules) reported
        × (all.new.items ≡ all.old.items ++ reported)) }
{
    let targets = CyclicRules::new(alloc, grammar)?;
    push_reported(alloc, all, &targets, usize::from(grammar.rules_len()))
}

/// A grammar, its unit steps, and for each of its rules the group of cyclic rules of which it is the first, or `None`
/// if it is the first of none.
#[derive(Drop)]
struct CyclicRules<'a> {
    grammar: &'a YaccGrammar<u32>,
    steps: Steps,
    groups: Vec<Option<CyclicGroup>>,
}

impl<'a> Model for CyclicRules<'a> {
    ghost use Rattle.cfgrammar.specs.Numbered.{Numbered};
    ghost use Rattle.cfgfindings.specs.Inner.CyclicRules.{AreOwnGroups};

    ghost Value = { Numbered };

    ghost view = { λ x. x.grammar.now };

    ghost invariant = { λ x. AreOwnGroups x.grammar.now x.steps x.groups.items };
}

impl<'a> CyclicRules<'a> {
    /// The groups of the grammar's cyclic rules.
    fn new(alloc: Global, grammar: &'a YaccGrammar<u32>) -> Result<Self, AllocError>
        ensures { IfOk result (λ x. x ≡ grammar.now) }
    {
        let firsts = grammar.firsts(alloc)?;
        let steps = unit_steps(alloc, grammar, &firsts)?;
        let groups = cyclic_groups(alloc, &steps)?;
        Ok(CyclicRules {
            grammar,
            steps,
            groups,
        })
    }
}

impl<'a> Reporter for CyclicRules<'a> {
    ghost use Rattle.std.specs.Prelude.{length};
    ghost use Rattle.cfgfindings.specs.Findings.{ReportsGroup};

    ghost count = { λ x. length x.rules };

    ghost reports = { ReportsGroup };

    fn report(&self, alloc: Global, number: usize) -> Result<Option<Finding>, AllocError> {
        unit_steps_are_derivations();
        match &self.groups[number] {
            Some(group) => group_finding(alloc, self.grammar, &self.steps, number, group),
            None => Ok(None),
        }
    }
}

/// The finding for the group whose first rule has this number, if it has rules of the file.
fn group_finding(
    alloc: Global,
    grammar: &YaccGrammar<u32>,
    steps: &Steps,
    number: usize,
    group: &CyclicGroup,
) -> Result<Option<Finding>, AllocError>
    requires steps { AreSteps (core grammar.now) steps.now }
    requires group { IsGroup (IsStep (core grammar.now)) number group.now.rules.items group.now.cycle.items }
    ensures { IfOk result (ReportsGroup grammar.now number) }
{
    unit_steps_are_derivations();
    let rules = own_rules(alloc, grammar, &group.rules)?;
    let Some(first) = rules.first().copied() else {
        return Ok(None);
    };
    if first == number {
        return Ok(Some(cyclic_group(alloc, grammar, first, &rules, &group.cycle)?));
    }
    match shortest_cycle(alloc, steps, first)? {
        Some(path) => Ok(Some(cyclic_group(alloc, grammar, first, &rules, &path)?)),
        None => Ok(None),
    }
}

/// Those of the rules that are rules of the file.
fn own_rules(
    alloc: Global,
    grammar: &YaccGrammar<u32>,
    rules: &[usize],
) -> Result<Vec<usize>, AllocError>
    ensures { IfOk result (λ own. own.items ≡ filter (λ rule. nat_le (added grammar.now) rule) rules.now) }
{
    let first = rules_added(grammar);
    rules
        .iter()
        .copied()
        .filter(|rule| first <= *rule)
        .collect(alloc)
}

/// The finding that these rules are cyclic, the first of them by this cycle.
fn cyclic_group(
    alloc: Global,
    grammar: &YaccGrammar<u32>,
    rule: usize,
    rules: &[usize],
    path: &[UnitStep],
) -> Result<Finding, AllocError>
    requires rule { rule < length grammar.now.rules }
    requires rules { All (λ r. r < length grammar.now.rules) rules.now }
    requires steps { All (IsSomeStep grammar.now) path.now }
    ensures { IfOk result (λ finding. finding ≡ cyclic_finding grammar.now rule rules.now path.now) }
{
    grammar.invariant_holds();
    let rule = RIdx(to_storage(rule));
    let name = grammar.rule_name_str(rule);
    let mut text = format!(in alloc; "Rule '{name}' derives itself: {name}")?;
    write_path(&mut text, grammar, path)?;
    let spans = name_spans(alloc, grammar, rules)?;
    Ok(Finding::new(FindingKind::CyclicRule, spans, text))
}

/// The spans of the rules' names.
pub(crate) fn name_spans(
    alloc: Global,
    grammar: &YaccGrammar<u32>,
    rules: &[usize],
) -> Result<Vec<Span>, AllocError>
    requires { All (λ r. r < length grammar.now.rules) rules.now }
    ensures { IfOk result (λ spans. spans.items ≡ map (rule_span grammar.now) rules.now) }
{
    grammar.invariant_holds();
    let mut spans = Vec::new(alloc);
    for rule in rules {
        spans.push(grammar.rule_name_span(RIdx(to_storage(*rule))))?;
    }
    Ok(spans)
}

/// Writes steps, one after the other.
fn write_path(
    text: &mut String,
    grammar: &YaccGrammar<u32>,
    path: &[UnitStep],
) -> Result<(), AllocError>
    requires { All (IsSomeStep grammar.now) path.now }
    ensures { OnOk result (string_bytes text.new ≡ string_bytes text.old ++ flat_map (step_text grammar.now) path.now) }
{
    for step in path {
        write_step(text, grammar, *step)?;
    }
    Ok(())
}

/// Writes the symbols of a step's production: the rule that the step leads to, and the nullable symbols in brackets.
fn write_step(
    text: &mut String,
    grammar: &YaccGrammar<u32>,
    step: UnitStep,
) -> Result<(), AllocError>
    requires { IsSomeStep grammar.now step }
    ensures { OnOk result (string_bytes text.new ≡ string_bytes text.old ++ step_text grammar.now step) }
{
    grammar.invariant_holds();
    let symbols = grammar.prod(PIdx(to_storage(step.production)));
    let (prefix, rest) = symbols.split_at(step.index);
    text.push_str(" ->")?;
    write_nullable(text, grammar, prefix)?;
    write!(
        text,
        " {}",
        grammar.rule_name_str(RIdx(to_storage(step.rule)))
    )?;
    write_nullable(text, grammar, &rest[1..])
}

/// Writes nullable symbols, each with a space and in brackets.
fn write_nullable(
    text: &mut String,
    grammar: &YaccGrammar<u32>,
    symbols: &[Symbol<u32>],
) -> Result<(), AllocError>
    requires { All (IsSymbolWithin (λ s. s) grammar.now) symbols.now }
    ensures { OnOk result (string_bytes text.new
        ≡ string_bytes text.old ++ nullable grammar.now (map (sym_of (λ s. s)) symbols.now)) }
{
    for symbol in symbols {
        write!(text, " [{}]", symbol_name(grammar, *symbol))?;
    }
    Ok(())
}
