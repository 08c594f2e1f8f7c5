//! The items of a state after one more symbol is read.

ghost use Rattle.std.specs.Prelude.{◌≡◌, ◌+◌, ◌++◌, ◌<◌, ℕ, Contains, IfOk, OnOk, length};
ghost use Rattle.std.specs.List.Sorted.{IsNonDecreasingBy};
ghost use Rattle.cfgrammar.specs.Accessors.{IsSymbolWithin};
ghost use Rattle.cfgrammar.specs.Numbered.{core};
ghost use Rattle.cfgrammar.specs.NumberedSymbols.{sym_of};
ghost use Rattle.lr_states.specs.Inner.Closure.{items_after, node_of, step_of};
ghost use Rattle.lr_states.specs.Inner.Steps.{items_by};
ghost use Rattle.lr_states.specs.declared.Item.{Item};

use crate::Item;
use crate::tables::next_symbol;
use cfgrammar::Symbol;
use cfgrammar::yacc::YaccGrammar;
use std::alloc::{AllocError, Global};

/// An item after its next symbol is read, and the number of that symbol.
#[derive(Clone, Copy)]
pub(crate) struct Step {
    pub(crate) symbol: usize,
    pub(crate) item: Item,
}

/// The steps of the items, in ascending order of their symbols; those by one symbol are in the order of the items.
///
/// # Errors
///
/// Out of memory.
pub(crate) fn successors(
    alloc: Global,
    grammar: &YaccGrammar<u32>,
    items: &[Item],
) -> Result<Vec<Step>, AllocError>
    requires { (item : Item) → Contains items.now item → item.production < length grammar.now.productions }
    ensures steps { IfOk result (λ steps. (node : ℕ)
        → items_by steps.items node ≡ items_after (core grammar.now) items.now node) }
    ensures ascending { IfOk result (λ steps. IsNonDecreasingBy (λ step. step.symbol) steps.items) }
{
    let mut steps = Vec::new(alloc);
    for item in items {
        push_step(grammar, &mut steps, *item)?;
    }
    steps.sort_by_key(|step| step.symbol)?;
    Ok(steps)
}

/// Pushes the item after its next symbol is read, if it has one.
fn push_step(
    grammar: &YaccGrammar<u32>,
    steps: &mut Vec<Step>,
    item: Item,
) -> Result<(), AllocError>
    requires { item.production < length grammar.now.productions }
    ensures { OnOk result ((node : ℕ) → items_by steps.new.items node
        ≡ items_by steps.old.items node ++ step_of (core grammar.now) node item) }
{
    grammar.invariant_holds();
    let Some(symbol) = next_symbol(grammar, item) else {
        return Ok(());
    };
    let advanced = Item {
        production: item.production,
        read: item.read + 1,
    };
    steps.push(Step {
        symbol: node_of(grammar, symbol),
        item: advanced,
    })?;
    Ok(())
}

/// The number of a symbol: the rules have the first ones.
fn node_of(grammar: &YaccGrammar<u32>, symbol: Symbol<u32>) -> usize
    requires { IsSymbolWithin (λ s. s) grammar.now symbol }
    ensures { result ≡ node_of (core grammar.now) (sym_of (λ s. s) symbol) }
{
    grammar.invariant_holds();
    match symbol {
        Symbol::Rule(rule) => usize::from(rule),
        Symbol::Token(token) => usize::from(grammar.rules_len()) + usize::from(token),
    }
}
