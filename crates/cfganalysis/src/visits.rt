//! Visits productions until none has anything to add. A production is visited again only if the set of a rule that it
//! depends on has grown (Nielson, Nielson and Hankin, Principles of Program Analysis, 6.1).

ghost use Rattle.std.specs.Prelude.{◌≡◌, ℕ, ◌+◌, ◌-◌, ◌^◌, ◌<◌, length, IfOk, MatchBool, OnErr, OnOk};
ghost use Rattle.derivation.specs.Grammar.{IsGrammar};
ghost use Rattle.cfganalysis.specs.Inner.Visits.{CanVisit, Visited, left_to_do};
ghost use Rattle.cfgsets.specs.Growth.{CoversEach};
ghost use Rattle.cfgtables.specs.Openings.{AreOpenedAtMost, OpensOne, most_openings};
ghost use Rattle.cfgsets.specs.Waiting.{NoneWaits};

use cfgindex::{PIdx, Storage, to_storage};
use cfgsets::{Analysis, Work, add_production};
use cfgtables::Productions;
use std::alloc::{AllocError, Global};

/// Opens a production for the first time: notes the rules that it depends on, and adds what it gives.
///
/// # Errors
///
/// Out of memory: the production was opened, but nothing was added.
fn visit_first<S: Storage, P: Productions<S>, A: Analysis<S>>(
    productions: &mut P,
    analysis: &mut A,
    work: &mut Work,
    number: usize,
) -> Result<(), AllocError>
    requires can { CanVisit S.MAX (P.content productions.old) }
    requires number { number < length (P.content productions.old).productions }
    requires visited { Visited A.holds A.covers A.bits A.depends_on (P.content productions.old) number analysis.old
        work.old.dependents work.old.waiting work.old.grown (P.opened productions.old) (P.opened_all productions.old) }
    ensures opens { OpensOne number (P.content productions.old) (P.content productions.new)
        (P.opened productions.old) (P.opened productions.new)
        (P.opened_all productions.old) (P.opened_all productions.new) }
    ensures visited { IfOk result (λ _. Visited A.holds A.covers A.bits A.depends_on
        (P.content productions.new) (number + 1) analysis.new
        work.new.dependents work.new.waiting work.new.grown (P.opened productions.new) (P.opened_all productions.new)) }
    ensures refused { OnErr result (analysis.new ≡ analysis.old) }
{
    let p = PIdx(to_storage(number));
    let rule = productions.rule_of(p);
    let symbols = productions.open(p);
    analysis.note(number, rule, symbols, &mut work.dependents)?;
    add_production(analysis, work, rule, symbols);
    Ok(())
}

/// Opens each production for the first time.
///
/// # Errors
///
/// Out of memory.
fn visit_each<S: Storage, P: Productions<S>, A: Analysis<S>>(
    productions: &mut P,
    analysis: &mut A,
    work: &mut Work,
    prods_len: usize,
) -> Result<(), AllocError>
    requires can { CanVisit S.MAX (P.content productions.old) }
    requires all { prods_len ≡ length (P.content productions.old).productions }
    requires visited { Visited A.holds A.covers A.bits A.depends_on (P.content productions.old) 0 analysis.old
        work.old.dependents work.old.waiting work.old.grown (P.opened productions.old) (P.opened_all productions.old) }
    ensures content { P.content productions.new ≡ P.content productions.old }
    ensures visited { IfOk result (λ _. Visited A.holds A.covers A.bits A.depends_on
        (P.content productions.new) prods_len analysis.new
        work.new.dependents work.new.waiting work.new.grown (P.opened productions.new) (P.opened_all productions.new)) }
    ensures refused { OnErr result (A.holds (P.content productions.old) analysis.new) }
    ensures few { OnErr result (AreOpenedAtMost (most_openings (P.content productions.old)) (P.content productions.old)
        (P.opened productions.new) (P.opened_all productions.new)) }
{
    for number in 0..prods_len {
        visit_first(productions, analysis, work, number)?;
    }
    Ok(())
}

/// Opens a production that waits, and adds what it gives. Returns whether one waited.
fn visit_next<S: Storage, P: Productions<S>, A: Analysis<S>>(
    productions: &mut P,
    analysis: &mut A,
    work: &mut Work,
) -> bool
    requires can { CanVisit S.MAX (P.content productions.old) }
    requires visited { Visited A.holds A.covers A.bits A.depends_on (P.content productions.old)
        (length (P.content productions.old).productions) analysis.old
        work.old.dependents work.old.waiting work.old.grown (P.opened productions.old) (P.opened_all productions.old) }
    ensures content { P.content productions.new ≡ P.content productions.old }
    ensures visited { Visited A.holds A.covers A.bits A.depends_on (P.content productions.new)
        (length (P.content productions.new).productions) analysis.new
        work.new.dependents work.new.waiting work.new.grown (P.opened productions.new) (P.opened_all productions.new) }
    ensures less { MatchBool result
        (left_to_do (P.content productions.new) (A.bits analysis.new) work.new.waiting
        < left_to_do (P.content productions.old) (A.bits analysis.old) work.old.waiting)
        (NoneWaits work.new.waiting) }
{
    let Some(number) = work.waiting.next() else {
        return false;
    };
    let p = PIdx(to_storage(number));
    let rule = productions.rule_of(p);
    add_production(analysis, work, rule, productions.open(p));
    true
}

/// Visits productions until none has anything to add.
///
/// # Errors
///
/// Out of memory.
pub(crate) fn visit_all<S: Storage, P: Productions<S>, A: Analysis<S>>(
    alloc: Global,
    productions: &mut P,
    analysis: &mut A,
) -> Result<(), AllocError>
    requires grammar { IsGrammar (P.content productions.old) }
    requires small { most_openings (P.content productions.old) < 2 ^ 64 - 1 }
    requires holds { A.holds (P.content productions.old) analysis.old }
    requires fresh { (q : ℕ) → q < length (P.content productions.old).productions
        → P.opened productions.old q ≡ 0 }
    requires all_fresh { P.opened_all productions.old ≡ 0 }
    ensures content { P.content productions.new ≡ P.content productions.old }
    ensures holds { A.holds (P.content productions.old) analysis.new }
    ensures covered { OnOk result (CoversEach A.covers (P.content productions.old) analysis.new) }
    ensures few { AreOpenedAtMost (most_openings (P.content productions.old)) (P.content productions.old)
        (P.opened productions.new) (P.opened_all productions.new) }
{
    let rules = productions.rules_len().0.to_usize();
    let prods_len = productions.prods_len().0.to_usize();
    let mut work = Work::new(alloc, rules, prods_len)?;
    visit_each(productions, analysis, &mut work, prods_len)?;
    while visit_next(productions, analysis, &mut work) {}
    Ok(())
}
