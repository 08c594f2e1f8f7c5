//! The lookaheads of a grammar's LALR(1) parser: the tokens that may come after a production where the parser has
//! read all of it (DeRemer and Pennello, Efficient computation of LALR(1) look-ahead sets, 1982).

mod edges;
mod nodes;
mod nullable;
mod reached;

ghost use Rattle.std.specs.Prelude.{◌≡◌, ◌↔◌, ◌<◌, ℕ, [], None, Contains, IfOk, IfSome, IsTrue};
ghost use Rattle.std.specs.Prelude.{get_or, length};
ghost use Rattle.cfgrammar.specs.Numbered.{core};
ghost use Rattle.lr_states.specs.Automaton.{AreGotos, HaveTargets};
ghost use Rattle.lr_states.specs.Viable.{AreSorted, AreStates, IsUsed};
ghost use Rattle.lr_states.specs.Lookaheads.{AreLookaheads, tokens_of};

use crate::lookaheads::edges::Graph;
use crate::lookaheads::nodes::{Nodes, place_of_item};
use crate::lookaheads::nullable::nullable_from;
use crate::lookaheads::reached::Reached;
use crate::{Item, States, used_productions};
use cfgrammar::Vob;
use cfgrammar::yacc::YaccGrammar;
use std::alloc::{AllocError, Global};
use std::marker::Model;

/// The states of a grammar, and the tokens that may come after the production of each of their items.
#[derive(Drop)]
pub struct Lookaheads {
    states: States,
    nodes: Nodes,
    reached: Reached,
}

impl Model for Lookaheads {
    ghost use Rattle.std.specs.Prelude.{◌≡◌, length};
    ghost use Rattle.lr_states.specs.Lookaheads.{LookaheadTables};
    ghost use Rattle.lr_states.specs.Inner.Numbers.{AreOfGrammar, numbers_of, rows_of};

    ghost Value = { LookaheadTables };

    ghost view = { λ x. record {
      automaton = x.states;
      rows = rows_of (numbers_of x.nodes) x.states x.reached;
    } };

    ghost invariant = { λ x. AreOfGrammar x.states (numbers_of x.nodes) × (length x.reached ≡ x.nodes.len) };
}

impl Lookaheads {
    /// The states of a grammar and the lookaheads of their items.
    ///
    /// # Errors
    ///
    /// Out of memory.
    pub fn of(alloc: Global, grammar: &YaccGrammar<u32>) -> Result<Self, AllocError>
        ensures states { IfOk result (λ x.
            AreStates (core grammar.now) (IsUsed (core grammar.now)) x.automaton.states) }
        ensures gotos { IfOk result (λ x. AreGotos (core grammar.now) (IsUsed (core grammar.now)) x.automaton) }
        ensures targets { IfOk result (λ x. HaveTargets (core grammar.now) x.automaton) }
        ensures lookaheads { IfOk result (λ x. AreLookaheads (core grammar.now) (IsUsed (core grammar.now)) x) }
    {
        grammar.invariant_holds();
        let states = States::of(alloc, grammar)?;
        let nodes = Nodes::of(alloc, grammar, &states)?;
        let firsts = grammar.firsts(alloc)?;
        let nullable_from = nullable_from(alloc, grammar, &firsts)?;
        let used = used_productions(alloc, grammar)?;
        let graph = Graph {
            grammar,
            states: &states,
            nodes: &nodes,
            firsts: &firsts,
            nullable_from: &nullable_from,
            used: &used,
        };
        let edges = graph.edges(alloc)?;
        let reached = Reached::of(alloc, &edges, nodes.tokens)?;
        Ok(Lookaheads {
            states,
            nodes,
            reached,
        })
    }

    /// The states.
    pub fn states(&self) -> &States
        ensures { result.now ≡ self.now.automaton }
    {
        &self.states
    }

    /// The tokens that may come after an item's production where a parser is in a state: a bit for each token. None
    /// if the state doesn't have the item.
    pub fn tokens(&self, state: usize, item: Item) -> Option<&Vob>
        ensures some { IfSome result (λ row. row.now ≡ tokens_of self.now state item) }
        ensures none { (result ≡ None) ↔ ((state < length self.now.automaton.states)
            × Contains (get_or self.now.automaton.states state []) item → ⊥) }
    {
        if has_item(&self.states, state, item) {
            let node = self.nodes.of_item(&self.states, state, item);
            Some(self.reached.row(node))
        } else {
            None
        }
    }
}

/// Whether a state has an item.
#[tactic(auto, using(crate::proofs::Places::any_item))]
fn has_item(states: &States, state: usize, item: Item) -> bool
    requires { (q : ℕ) → q < length states.now.states → AreSorted (get_or states.now.states q []) }
    ensures { IsTrue result ↔ ((state < length states.now.states) × Contains (get_or states.now.states state []) item) }
{
    state < states.len() && place_of_item(states.items(state), item).is_some()
}
