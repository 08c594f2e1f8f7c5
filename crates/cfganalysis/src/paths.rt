//! Paths from rule to rule along references.

ghost use Rattle.std.specs.Prelude.{◌≡◌, ◌<◌, ◌↔◌, All, Contains, length, map, IfOk, IsTrue, OnOk};
ghost use Rattle.derivation.specs.Grammar.{Grammar, HasProduction, IsSymbolOf, Rule};
ghost use Rattle.derivation.specs.Path.{Refers, Path};
ghost use Rattle.search.specs.Reachable.{FoundBy, Reaches};
ghost use Rattle.cfganalysis.specs.Paths.{ProductionRefersAt};
ghost use Rattle.cfgtables.specs.NumberedSymbols.{sym_of};

use cfgindex::{PIdx, RIdx, Storage, Symbol, to_storage};
use cfgtables::Tables;
use search::{Edges, Marks, Search};
use std::alloc::{AllocError, Global};
use std::marker::PhantomData;

/// Queues the symbol, if it is a rule.
fn reach_symbol<S: Storage, M: Marks>(
    search: &mut Search<M>,
    symbol: Symbol<S>,
) -> Result<(), AllocError>
    requires { (g : Grammar) × (length search.old.reachable ≡ g.rules) × IsSymbolOf g (sym_of S.number symbol) }
    ensures { OnOk result (Reaches (λ r. Rule r ≡ sym_of S.number symbol) search.old search.new) }
{
    match symbol {
        Symbol::Rule(rule) => search.reach(usize::from(rule)),
        Symbol::Token(_) => Ok(()),
    }
}

/// Queues the rules among the symbols.
///
/// # Errors
///
/// Out of memory.
pub fn reach_symbols<S: Storage, M: Marks>(
    search: &mut Search<M>,
    symbols: &[Symbol<S>],
) -> Result<(), AllocError>
    requires { (g : Grammar) × (length search.old.reachable ≡ g.rules)
        × All (IsSymbolOf g) (map (sym_of S.number) symbols.now) }
    ensures { OnOk result (Reaches (λ r. Contains (map (sym_of S.number) symbols.now) (Rule r))
        search.old search.new) }
{
    for symbol in symbols {
        reach_symbol(search, *symbol)?;
    }
    Ok(())
}

/// Queues the rules that the productions contain.
///
/// # Errors
///
/// Out of memory.
pub fn reach_referred<S: Storage, T: Tables<S>, M: Marks>(
    search: &mut Search<M>,
    tables: &T,
    productions: &[PIdx<S>],
) -> Result<(), AllocError>
    requires rules { length search.old.reachable ≡ (T.grammar tables.now).rules }
    requires productions { All (λ p. p < length (T.grammar tables.now).productions)
        (map (λ p. S.number p.0) productions.now) }
    ensures { OnOk result (Reaches
        (FoundBy (ProductionRefersAt (T.grammar tables.now)) (map (λ p. S.number p.0) productions.now))
        search.old search.new) }
{
    let _rules = tables.rules_len();
    for production in productions {
        reach_symbols(search, tables.prod(*production))?;
    }
    Ok(())
}

/// The rules of a grammar, each of which leads to those that its productions contain.
#[derive(Drop)]
struct References<'a, S: Storage, T: Tables<S>> {
    tables: &'a T,
    storage: PhantomData<S>,
}

impl<'a, S: Storage, T: Tables<S>, M: Marks> Edges<M> for References<'a, S, T> {
    ghost nodes = { λ x. (T.grammar x.tables.now).rules };

    ghost leads = { λ x. Refers (HasProduction (T.grammar x.tables.now)) };

    fn reach_from(&self, node: usize, search: &mut Search<M>) -> Result<(), AllocError> {
        let _rules = self.tables.rules_len().0.to_usize();
        let productions = self.tables.rule_to_prods(RIdx(to_storage(node)));
        reach_referred(search, self.tables, productions)
    }
}

/// Whether one rule leads to another in one or more references: one of its productions contains the other rule, or
/// contains a rule that leads to it.
///
/// # Errors
///
/// Out of memory.
pub fn has_path<S: Storage, T: Tables<S>>(
    alloc: Global,
    tables: &T,
    from: RIdx<S>,
    to: RIdx<S>,
) -> Result<bool, AllocError>
    requires { S.number from.0 < (T.grammar tables.now).rules }
    ensures { IfOk result (λ b. IsTrue b
        ↔ Path (HasProduction (T.grammar tables.now)) (S.number from.0) (S.number to.0)) }
{
    let references = References {
        tables,
        storage: PhantomData,
    };
    let mut search = Search::through(alloc, usize::from(tables.rules_len()))?;
    references.reach_from(usize::from(from), &mut search)?;
    search.go_on(&references)?;
    Ok(search.is_reachable(usize::from(to)))
}
