//! The states of a grammar's LR(0) automaton: for each viable prefix the items that are valid for it (Aho, Lam, Sethi
//! and Ullman, 4.6); and the lookaheads of their items. Productions with a rule that has no sentence take no part.
#![tactic(auto)]

mod closure;
mod kernels;
pub mod lookaheads;
mod successors;
pub mod tables;
mod used;

ghost use Rattle.std.specs.Prelude.{◌≡◌, ◌<◌, [], get_or, length, IfOk};
ghost use Rattle.cfgrammar.specs.Numbered.{core};
ghost use Rattle.cfgrammar.specs.NumberedSymbols.{sym_of};
ghost use Rattle.lr_states.specs.Automaton.{AreAscending, AreGotos, HaveTargets, goto_of, target_of};
ghost use Rattle.lr_states.specs.Viable.{AreStates, IsUsed};

use crate::closure::Used;
use crate::kernels::{Visited, explore, place_of_symbol};
use cfgrammar::yacc::YaccGrammar;
use cfgrammar::{RIdx, Storage, Symbol};
pub use kernels::Target;
use std::alloc::{AllocError, Global};
use std::marker::Model;
pub use used::used_productions;

/// A production, of which some symbols are read.
#[derive(Clone, Copy, PartialEq, Eq, Hash)]
pub struct Item {
    /// The number of the production.
    pub production: usize,
    /// How many of its symbols are read.
    pub read: usize,
}

/// The states of a grammar, each with its items: those with most symbols read first, and then by their productions.
#[derive(Drop)]
pub struct States {
    rules: RIdx<u32>,
    visited: Vec<Visited>,
}

impl Model for States {
    ghost use Rattle.std.specs.Prelude.{All, map};
    ghost use Rattle.lr_states.specs.Automaton.{AreAscending, Automaton};

    ghost Value = { Automaton };

    ghost view = { λ x. record {
      rules = x.rules.0;
      states = map (λ v. v.items.items) x.visited.items;
      targets = map (λ v. v.targets.items) x.visited.items;
    } };

    ghost invariant = { λ x. All (λ v. AreAscending v.targets.items) x.visited.items };
}

impl States {
    /// The states of the viable prefixes of a grammar, each once, that of the empty prefix first. There are none if
    /// the start rule has no sentence.
    ///
    /// # Errors
    ///
    /// Out of memory.
    pub fn of(alloc: Global, grammar: &YaccGrammar<u32>) -> Result<Self, AllocError>
        ensures states { IfOk result (λ x. AreStates (core grammar.now) (IsUsed (core grammar.now)) x.states) }
        ensures gotos { IfOk result (λ x. AreGotos (core grammar.now) (IsUsed (core grammar.now)) x) }
        ensures targets { IfOk result (λ x. HaveTargets (core grammar.now) x) }
    {
        let used = Used {
            grammar,
            bits: used_productions(alloc, grammar)?,
        };
        let visited = explore(alloc, &used)?;
        Ok(States {
            rules: grammar.rules_len(),
            visited,
        })
    }

    /// The number of states.
    pub fn len(&self) -> usize
        ensures { result ≡ length self.now.states }
    {
        self.visited.len()
    }

    /// The items of a state.
    pub fn items(&self, number: usize) -> &[Item]
        requires { number < length self.now.states }
        ensures { result.now ≡ get_or self.now.states number [] }
    {
        &self.visited[number].items
    }

    /// The symbols that lead from a state to others, in ascending order, and those states.
    pub fn targets(&self, number: usize) -> &[Target]
        requires { number < length self.now.states }
        ensures { result.now ≡ get_or self.now.targets number [] }
    {
        &self.visited[number].targets
    }

    /// The state that a symbol of the grammar leads to from a state: that of its prefixes with the symbol. There is
    /// none if these are not viable.
    pub fn goto(&self, number: usize, symbol: Symbol<u32>) -> Option<usize>
        requires { number < length self.now.states }
        ensures { result ≡ goto_of self.now number (sym_of (λ s. s) symbol) }
    {
        let node = match symbol {
            Symbol::Rule(rule) => rule.0.to_usize(),
            Symbol::Token(token) => self.rules.0.to_usize() + token.0.to_usize(),
        };
        target_of(&self.visited[number].targets, node)
    }
}

/// The state of the target for a symbol with this number.
fn target_of(targets: &[Target], node: usize) -> Option<usize>
    requires { AreAscending targets.now }
    ensures { result ≡ target_of targets.now node }
{
    match place_of_symbol(targets, node) {
        Some(place) => Some(targets[place].state),
        None => None,
    }
}
