//! The kinds of productions, found once for each production: base, chain, or not optimal.

ghost use Rattle.std.specs.Prelude.{◌≡◌, ℕ, ◌<◌, All, Contains, IfOk, MatchOption, Some, length, map, slice_index};
ghost use Rattle.cfgtables.specs.NumberedSymbols.{sym_of};
ghost use Rattle.derivation.specs.Grammar.{Rule};
ghost use Rattle.derivation.specs.CostLists.{IsListed, rule_cost};
ghost use Rattle.derivation.specs.Sums.{symbol_cost};
ghost use Rattle.cfgleast.specs.Generator.{IsGeneratorOf, settled_tables};
ghost use Rattle.cfgchoices.specs.Inner.SequenceKinds.{IsSequenceKind};
ghost use Rattle.cfgchoices.specs.Kinds.{AreKinds, HasRulesAsTargets, IsKind};

use cfgindex::{PIdx, RIdx, Storage, Symbol, to_storage};
use cfgleast::partial::Partial;
use cfgleast::settle::Settled;
use cfgleast::walk::{TOO_LARGE, walk};
use cfgtables::Tables;
use std::alloc::{AllocError, Global};

/// The kind of a production.
#[derive(Clone, Copy)]
pub enum Kind<S> {
    /// Not optimal: it costs more than its rule, or the rule costs nothing, or has no cost to return.
    Suboptimal,
    /// A base production: it costs just what its rule does, and each rule in it costs less.
    Base,
    /// A chain production: it costs just what its rule does, and so does this rule in it.
    Chain(RIdx<S>),
}

/// The symbol's rule, if it has this cost.
fn rule_of_cost<S: Storage>(least: &[Option<u32>], symbol: Symbol<S>, cost: u32) -> Option<RIdx<S>>
    requires { (tokens : ℕ) × IsListed (length least.now) tokens (sym_of S.number symbol) }
    ensures { MatchOption result
        ((q : ℕ) → sym_of S.number symbol ≡ Rule q → rule_cost least.now q ≡ Some cost → ⊥)
        (λ r. (sym_of S.number symbol ≡ Rule (S.number r.0)) × (rule_cost least.now (S.number r.0) ≡ Some cost)) }
{
    match symbol {
        Symbol::Rule(rule) if least[usize::from(rule)] == Some(cost) => Some(rule),
        _ => None,
    }
}

/// The first rule among the symbols that has this cost.
fn first_of_cost<S: Storage>(
    least: &[Option<u32>],
    symbols: &[Symbol<S>],
    cost: u32,
) -> Option<RIdx<S>>
    requires { (tokens : ℕ) × All (IsListed (length least.now) tokens) (map (sym_of S.number) symbols.now) }
    ensures { MatchOption result
        ((q : ℕ) → Contains (map (sym_of S.number) symbols.now) (Rule q) → rule_cost least.now q ≡ Some cost → ⊥)
        (λ r. Contains (map (sym_of S.number) symbols.now) (Rule (S.number r.0))
        × (rule_cost least.now (S.number r.0) ≡ Some cost)) }
{
    for symbol in symbols {
        if let Some(rule) = rule_of_cost(least, *symbol, cost) {
            return Some(rule);
        }
    }
    None
}

/// The kind of a production with these symbols, whose rule has this cost.
fn sequence_kind<S: Storage>(
    costs: &[u8],
    least: &[Option<u32>],
    symbols: &[Symbol<S>],
    cost: u32,
) -> Kind<S>
    requires listed { All (IsListed (length least.now) (length costs.now)) (map (sym_of S.number) symbols.now) }
    requires small { cost < 65536 }
    ensures { IsSequenceKind S.number (slice_index costs.now) (rule_cost least.now) cost
        (map (sym_of S.number) symbols.now) result }
{
    let start = Partial {
        production: 0,
        taken: 0,
        sum: 0,
    };
    match walk(costs, least, symbols, start) {
        Ok(sum) => {
            if sum == cost {
                match first_of_cost(least, symbols, cost) {
                    Some(rule) => Kind::Chain(rule),
                    None => Kind::Base,
                }
            } else {
                Kind::Suboptimal
            }
        }
        Err(_) => Kind::Suboptimal,
    }
}

/// The kind of the production.
fn kind_of<S: Storage, T: Tables<S>>(
    tables: &T,
    costs: &[u8],
    settled: &Settled<S>,
    p: PIdx<S>,
) -> Kind<S>
    requires generator { IsGeneratorOf S.number (T.grammar tables.now) costs.now settled.now }
    requires index { S.number p.0 < length (T.grammar tables.now).productions }
    ensures { IsKind S.number (settled_tables S.number (T.grammar tables.now) costs.now settled.now)
        (S.number p.0) result }
{
    tables.invariant_holds();
    let rule = usize::from(tables.prod_to_rule(p));
    match settled.least[rule] {
        Some(cost) if cost > 0 && cost < TOO_LARGE => {
            sequence_kind(costs, &settled.least, tables.prod(p), cost)
        }
        _ => Kind::Suboptimal,
    }
}

/// The kind of each production.
///
/// # Errors
///
/// Out of memory.
pub fn kinds<S: Storage, T: Tables<S>>(
    alloc: Global,
    tables: &T,
    costs: &[u8],
    settled: &Settled<S>,
) -> Result<Vec<Kind<S>>, AllocError>
    requires { IsGeneratorOf S.number (T.grammar tables.now) costs.now settled.now }
    ensures kinds { IfOk result (λ kinds. AreKinds S.number
        (settled_tables S.number (T.grammar tables.now) costs.now settled.now) kinds.items) }
    ensures targets { IfOk result (λ kinds. HasRulesAsTargets S.number (T.grammar tables.now) kinds.items) }
{
    let prods_len = tables.prods_len().0.to_usize();
    let mut kinds = Vec::new(alloc);
    for number in 0..prods_len {
        kinds.push(kind_of(tables, costs, settled, PIdx(to_storage(number))))?;
    }
    Ok(kinds)
}
