//! The unit steps of a grammar.

ghost use Rattle.std.specs.Prelude.{◌≡◌, ◌<◌, ◌≤◌, ◌↔◌, ℕ, length, map, IfOk, OnErr, OnOk};
ghost use Rattle.derivation.specs.Grammar.{Rule};
ghost use Rattle.cfgtables.specs.NumberedSymbols.{sym_of};
ghost use Rattle.cfganalysis.specs.Firsts.{AreFirsts};
ghost use Rattle.cfgcycles.specs.StepLists.{AreAllInOrder, HasStep, IsEarlier};
ghost use Rattle.cfgcycles.specs.UnitSteps.{AreSteps, IsStep};
ghost use Rattle.cfgcycles.specs.declared.step_paths.UnitStep.{UnitStep};
ghost use Rattle.cfgcycles.specs.Inner.Putting.{AreNullableBetween, ArePut, is_empty};

use crate::step_paths::{Steps, UnitStep};
use cfganalysis::firsts::YaccFirsts;
use cfgindex::{PIdx, Storage, Symbol, to_storage};
use cfgtables::Tables;
use std::alloc::{AllocError, Global};

/// The unit steps of a grammar: from rule to rule, by productions in which all other symbols are nullable. `firsts` has
/// the grammar's FIRST sets. Each step is there once; those of a rule are in order of productions, and of indices.
///
/// # Errors
///
/// Out of memory.
pub fn unit_steps<S: Storage, T: Tables<S>>(
    alloc: Global,
    tables: &T,
    firsts: &YaccFirsts<S>,
) -> Result<Steps, AllocError>
    requires { AreFirsts (T.grammar tables.now) firsts.now }
    ensures { IfOk result (AreSteps (T.grammar tables.now)) }
{
    let productions = tables.prods_len().0.to_usize();
    let mut steps = Steps::new(alloc, usize::from(tables.rules_len()))?;
    for production in 0..productions {
        put_steps(&mut steps, tables, firsts, production)?;
    }
    Ok(steps)
}

/// Adds the steps by this production to those of its rule.
fn put_steps<S: Storage, T: Tables<S>>(
    steps: &mut Steps,
    tables: &T,
    firsts: &YaccFirsts<S>,
    production: usize,
) -> Result<(), AllocError>
    requires firsts { AreFirsts (T.grammar tables.now) firsts.now }
    requires production { production < length (T.grammar tables.now).productions }
    requires rules { length steps.old ≡ (T.grammar tables.now).rules }
    ensures put { OnOk result (ArePut (λ a step. IsStep (T.grammar tables.now) a step × (step.production ≡ production))
        steps.old steps.new) }
    ensures order { OnOk result (AreAllInOrder steps.old
        → ((a : ℕ) (step : UnitStep) → HasStep steps.old a step → step.production < production)
        → AreAllInOrder steps.new) }
{
    tables.invariant_holds();
    let pidx = PIdx(to_storage(production));
    let rule = usize::from(tables.prod_to_rule(pidx));
    let symbols = tables.prod(pidx);
    let after = nullable_from(firsts, symbols);
    let mut prefix = true;
    for (index, symbol) in symbols.iter().enumerate() {
        if prefix && after <= index + 1 {
            put_step(steps, rule, *symbol, production, index)?;
        }
        prefix = prefix && nullable(firsts, *symbol);
    }
    Ok(())
}

/// Adds the step at this index of the production to those of the rule, if the symbol at the index is a rule.
///
/// # Errors
///
/// Out of memory, but not for a token.
fn put_step<S: Storage>(
    steps: &mut Steps,
    rule: usize,
    symbol: Symbol<S>,
    production: usize,
    index: usize,
) -> Result<(), AllocError>
    requires { rule < length steps.old }
    ensures put { OnOk result (ArePut (λ a step. (a ≡ rule) × (Rule step.rule ≡ sym_of S.number symbol)
        × (step.production ≡ production) × (step.index ≡ index)) steps.old steps.new) }
    ensures order { OnOk result (AreAllInOrder steps.old
        → ((step : UnitStep) → HasStep steps.old rule step → IsEarlier production index step)
        → AreAllInOrder steps.new) }
    ensures refused { OnErr result ((next : ℕ) × (sym_of S.number symbol ≡ Rule next)) }
{
    match symbol {
        Symbol::Rule(next) => {
            let step = UnitStep {
                rule: usize::from(next),
                production,
                index,
            };
            steps.push(rule, step)?;
            Ok(())
        }
        Symbol::Token(_) => Ok(()),
    }
}

/// The first index such that all symbols from it on are nullable.
fn nullable_from<S: Storage>(firsts: &YaccFirsts<S>, symbols: &[Symbol<S>]) -> usize
    ensures { (index : ℕ) → (result ≤ index)
        ↔ AreNullableBetween firsts.now (map (sym_of S.number) symbols.now) index (length symbols.now) }
{
    let mut from = 0;
    for (index, symbol) in symbols.iter().enumerate() {
        if !nullable(firsts, *symbol) {
            from = index + 1;
        }
    }
    from
}

/// Whether the symbol is a nullable rule.
fn nullable<S: Storage>(firsts: &YaccFirsts<S>, symbol: Symbol<S>) -> bool
    ensures { result ≡ is_empty firsts.now (sym_of S.number symbol) }
{
    match symbol {
        Symbol::Rule(rule) => firsts.is_epsilon_set(rule),
        Symbol::Token(_) => false,
    }
}
