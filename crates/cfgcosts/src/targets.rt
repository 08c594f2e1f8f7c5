//! Rules whose only optimal production is a chain production: they have the minimal sentences of the rule that it leads
//! to, and so of the last rule of a chain of such rules.

ghost use Rattle.std.specs.Prelude.{◌≡◌, ◌<◌, List, IfOk, IfSome, length};
ghost use Rattle.derivation.specs.Grammar.{Grammar};
ghost use Rattle.cfgcosts.specs.Inner.Targets.{AreTargets, LeadsOnlyTo, rules_of};
ghost use Rattle.cfgchoices.specs.Kinds.{HasRulesAsTargets};
ghost use Rattle.cfgchoices.specs.declared.kinds.Kind.{Kind};

use cfgchoices::kinds::Kind;
use cfgindex::{RIdx, Storage, to_storage};
use cfgtables::Tables;
use std::alloc::{AllocError, Global};

/// The rule that a chain production of the rule leads to, if the rule has no other optimal production.
fn only_target<S: Storage, T: Tables<S>>(
    tables: &T,
    kinds: &[Kind<S>],
    rule: RIdx<S>,
) -> Option<RIdx<S>>
    requires rule { S.number rule.0 < (T.grammar tables.now).rules }
    requires kinds { length kinds.now ≡ length (T.grammar tables.now).productions }
    ensures { IfSome result (λ target.
        LeadsOnlyTo S.number (T.grammar tables.now) kinds.now (S.number rule.0) (S.number target.0)) }
{
    let mut only = None;
    for p in tables.rule_to_prods(rule) {
        let kind = kinds[usize::from(*p)];
        match kind {
            Kind::Suboptimal => {}
            Kind::Chain(target) if only.is_none() => only = Some(target),
            _ => return None,
        }
    }
    only
}

/// For each rule, the rule that its only optimal production leads to, or else the rule itself.
///
/// # Errors
///
/// Out of memory.
fn only_targets<S: Storage, T: Tables<S>>(
    alloc: Global,
    tables: &T,
    kinds: &[Kind<S>],
) -> Result<Vec<RIdx<S>>, AllocError>
    requires kinds { length kinds.now ≡ length (T.grammar tables.now).productions }
    requires targets { HasRulesAsTargets S.number (T.grammar tables.now) kinds.now }
    ensures { IfOk result (λ targets.
        AreTargets S.number (T.grammar tables.now) kinds.now (rules_of S.number targets.items)) }
{
    let rules_len = tables.rules_len().0.to_usize();
    let mut targets = Vec::new(alloc);
    for number in 0..rules_len {
        let rule = RIdx(to_storage(number));
        targets.push(only_target(tables, kinds, rule).unwrap_or(rule))?;
    }
    Ok(targets)
}

/// Replaces each entry by the entry of that rule. Returns whether an entry changed.
fn go_on<S: Storage>(targets: &mut Vec<RIdx<S>>) -> bool
    requires { (g : Grammar) × (kinds : List (Kind S))
        × AreTargets S.number g kinds (rules_of S.number targets.old.items) }
    ensures { (g : Grammar) (kinds : List (Kind S)) → AreTargets S.number g kinds (rules_of S.number targets.old.items)
        → AreTargets S.number g kinds (rules_of S.number targets.new.items) }
{
    let mut moved = false;
    for number in 0..targets.len() {
        let target = targets[number];
        let next = targets[usize::from(target)];
        moved = moved || next != target;
        targets[number] = next;
    }
    moved
}

/// For each rule, the last rule of a chain in which each rule's only optimal production leads to the next rule.
///
/// # Errors
///
/// Out of memory.
pub(crate) fn last_targets<S: Storage, T: Tables<S>>(
    alloc: Global,
    tables: &T,
    kinds: &[Kind<S>],
) -> Result<Vec<RIdx<S>>, AllocError>
    requires kinds { length kinds.now ≡ length (T.grammar tables.now).productions }
    requires targets { HasRulesAsTargets S.number (T.grammar tables.now) kinds.now }
    ensures { IfOk result (λ targets.
        AreTargets S.number (T.grammar tables.now) kinds.now (rules_of S.number targets.items)) }
{
    let mut targets = only_targets(alloc, tables, kinds)?;
    // Each iteration doubles how far an entry has come, and no chain is too long to be counted in 32 bits.
    for _turn in 0..32 {
        if !go_on(&mut targets) {
            return Ok(targets);
        }
    }
    Ok(targets)
}
