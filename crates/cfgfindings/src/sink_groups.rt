//! Which unproductive rules depend on each other, and which of their groups are sink groups.

ghost use Rattle.std.specs.Prelude.{◌≡◌, ◌<◌, ℕ, None, Some, All, Contains, get_or, length, map};
ghost use Rattle.std.specs.Prelude.{IfOk, MatchBool, OnOk};
ghost use Rattle.cfgrammar.specs.Accessors.{IsSymbolWithin};
ghost use Rattle.cfgrammar.specs.CyclicGroups.{AreGroups};
ghost use Rattle.cfgrammar.specs.NumberedSymbols.{sym_of};
ghost use Rattle.cfgrammar.specs.StepLists.{AreWithin, HasStep};
ghost use Rattle.cfgfindings.specs.Inner.SinkGroups.{AllLeadTo, AreFirsts, AreGroupOf, AreNeeds, AreNeedsBelow};
ghost use Rattle.cfgfindings.specs.Inner.SinkGroups.{IsMarked, IsNeededIn, IsSet, LeadTo, NeedsBy, Puts};

use crate::sentences::Unproductive;
use cfgrammar::laws::cyclic_rules_are_in_one_group;
use cfgrammar::storage::to_storage;
use cfgrammar::yacc::cycles::{CyclicGroup, Steps, UnitStep, cyclic_groups};
use cfgrammar::{PIdx, RIdx, Symbol};
use std::alloc::{AllocError, Global};
use std::marker::Model;

/// A grammar's unproductive rules; their groups, in each of which the rules depend on each other; and for each rule in
/// a sink group the first rule of the group.
#[derive(Drop)]
pub(crate) struct SinkGroups<'a> {
    unproductive: &'a Unproductive<'a>,
    groups: Vec<Option<CyclicGroup>>,
    firsts: Vec<Option<usize>>,
}

impl<'a> Model for SinkGroups<'a> {
    ghost use Rattle.cfgrammar.specs.Numbered.{Numbered};
    ghost use Rattle.cfgfindings.specs.Inner.SinkGroups.{AreSinkGroups};

    ghost Value = { Numbered };

    ghost view = { λ x. x.unproductive.now };

    ghost invariant = { λ x. AreSinkGroups x.unproductive.now x.groups.items x.firsts.items };
}

impl<'a> SinkGroups<'a> {
    /// Finds the sink groups.
    pub(crate) fn new(alloc: Global, unproductive: &'a Unproductive<'a>) -> Result<Self, AllocError>
        ensures { IfOk result (λ x. x ≡ unproductive.now) }
    {
        cyclic_rules_are_in_one_group();
        let needs = needs_of(alloc, unproductive)?;
        let groups = cyclic_groups(alloc, &needs)?;
        let firsts = firsts_of(alloc, &needs, &groups)?;
        Ok(SinkGroups {
            unproductive,
            groups,
            firsts,
        })
    }

    /// Which rules are unproductive.
    pub(crate) fn unproductive(&self) -> &'a Unproductive<'a>
        ensures { result.now ≡ self.now }
    {
        self.unproductive
    }

    /// The group of the rule, in ascending order, if the rule is a sink; otherwise no rules.
    pub(crate) fn group(&self, rule: usize) -> &[usize]
        requires { rule < length self.now.rules }
        ensures { AreGroupOf self.now rule result.now }
    {
        match self.firsts[rule] {
            Some(first) => match &self.groups[first] {
                Some(group) => &group.rules,
                None => &[],
            },
            None => &[],
        }
    }
}

/// Steps from each unproductive rule to itself, so that each is in a group, and to the rules that it needs.
fn needs_of(alloc: Global, unproductive: &Unproductive<'_>) -> Result<Steps, AllocError>
    ensures { IfOk result (AreNeeds unproductive.now) }
{
    let mut needs = own_steps(alloc, unproductive)?;
    for production in 0..usize::from(unproductive.grammar().prods_len()) {
        push_needs(&mut needs, unproductive, production)?;
    }
    Ok(needs)
}

/// A step from each unproductive rule to itself.
fn own_steps(alloc: Global, unproductive: &Unproductive<'_>) -> Result<Steps, AllocError>
    ensures { IfOk result (AreNeedsBelow unproductive.now (length unproductive.now.rules) 0) }
{
    let grammar = unproductive.grammar();
    grammar.invariant_holds();
    let rules = usize::from(grammar.rules_len());
    let mut steps = Steps::new(alloc, rules)?;
    for rule in 0..rules {
        if unproductive.contains(RIdx(to_storage(rule))) {
            steps.push(rule, step_to(rule))?;
        }
    }
    Ok(steps)
}

/// Adds steps from the rule of the production, if it is unproductive, to the unproductive rules in the production.
fn push_needs(
    needs: &mut Steps,
    unproductive: &Unproductive<'_>,
    production: usize,
) -> Result<(), AllocError>
    requires production { production < length unproductive.now.productions }
    requires entries { length needs.old ≡ length unproductive.now.rules }
    ensures { OnOk result (Puts (NeedsBy unproductive.now production) needs.old needs.new) }
{
    let grammar = unproductive.grammar();
    grammar.invariant_holds();
    let production = PIdx(to_storage(production));
    let rule = grammar.prod_to_rule(production);
    if unproductive.contains(rule) {
        push_needed(
            needs,
            unproductive,
            usize::from(rule),
            grammar.prod(production),
        )?;
    }
    Ok(())
}

/// Adds steps from the rule to the unproductive ones among the symbols.
fn push_needed(
    needs: &mut Steps,
    unproductive: &Unproductive<'_>,
    rule: usize,
    symbols: &[Symbol<u32>],
) -> Result<(), AllocError>
    requires rule { rule < length needs.old }
    requires entries { length needs.old ≡ length unproductive.now.rules }
    requires within { All (IsSymbolWithin (λ s. s) unproductive.now) symbols.now }
    ensures { OnOk result (Puts (λ a b. (a ≡ rule) × IsNeededIn unproductive.now (map (sym_of (λ s. s)) symbols.now) b)
        needs.old needs.new) }
{
    for symbol in symbols {
        if let Symbol::Rule(needed) = symbol {
            if unproductive.contains(*needed) {
                needs.push(rule, step_to(usize::from(*needed)))?;
            }
        }
    }
    Ok(())
}

/// A step to the rule. By which production it leads there doesn't matter.
fn step_to(rule: usize) -> UnitStep
    ensures { result.rule ≡ rule }
{
    UnitStep {
        rule,
        production: 0,
        index: 0,
    }
}

/// For each rule of a group that no step leads out of, the first rule of the group, and for each other rule `None`.
fn firsts_of(
    alloc: Global,
    steps: &Steps,
    groups: &[Option<CyclicGroup>],
) -> Result<Vec<Option<usize>>, AllocError>
    requires within { AreWithin steps.now }
    requires groups { AreGroups (HasStep steps.now) (length steps.now) groups.now }
    ensures { IfOk result (λ firsts. AreFirsts steps.now groups.now (length groups.now) firsts.items) }
{
    cyclic_rules_are_in_one_group();
    let mut firsts = vec![in alloc; None; groups.len()]?;
    for first in 0..groups.len() {
        if let Some(group) = &groups[first] {
            mark_group(&mut firsts, steps, &group.rules, first);
        }
    }
    Ok(firsts)
}

/// Marks the rules of a group with the first of them, unless a step leads out of the group.
fn mark_group(firsts: &mut Vec<Option<usize>>, steps: &Steps, rules: &[usize], first: usize)
    requires entries { length firsts.old.items ≡ length steps.now }
    requires within { AreWithin steps.now }
    requires rules { All (λ rule. rule < length steps.now) rules.now }
    requires fresh { (rule : ℕ) → get_or firsts.old.items rule None ≡ Some first → ⊥ }
    ensures entries { length firsts.new.items ≡ length firsts.old.items }
    ensures marked { IsMarked steps.now rules.now first firsts.old.items firsts.new.items }
{
    set_all(firsts, rules, Some(first));
    if !is_closed(firsts, steps, rules, first) {
        set_all(firsts, rules, None);
    }
}

/// Gives each of the rules this entry.
fn set_all(entries: &mut Vec<Option<usize>>, rules: &[usize], entry: Option<usize>)
    requires { All (λ rule. rule < length entries.old.items) rules.now }
    ensures entries { length entries.new.items ≡ length entries.old.items }
    ensures set { (rule : ℕ) → IsSet rules.now entry entries.old.items entries.new.items rule }
{
    for rule in rules {
        entries[*rule] = entry;
    }
}

/// Whether the steps from these rules all lead to rules with this entry.
fn is_closed(entries: &[Option<usize>], steps: &Steps, rules: &[usize], first: usize) -> bool
    requires entries { length entries.now ≡ length steps.now }
    requires within { AreWithin steps.now }
    requires rules { All (λ rule. rule < length steps.now) rules.now }
    ensures { MatchBool result (LeadTo steps.now entries.now first rules.now)
        (LeadTo steps.now entries.now first rules.now → ⊥) }
{
    for rule in rules {
        if !lead_to(entries, steps.of(*rule), first) {
            return false;
        }
    }
    true
}

/// Whether these steps all lead to rules with this entry.
fn lead_to(entries: &[Option<usize>], steps: &[UnitStep], first: usize) -> bool
    requires { (step : UnitStep) → Contains steps.now step → step.rule < length entries.now }
    ensures { MatchBool result (AllLeadTo steps.now entries.now first) (AllLeadTo steps.now entries.now first → ⊥) }
{
    for step in steps {
        if entries[step.rule] != Some(first) {
            return false;
        }
    }
    true
}
