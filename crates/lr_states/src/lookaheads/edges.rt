//! The edges of a graph in which a node leads to the tokens that may come after it.

ghost use Rattle.std.specs.Prelude.{◌≡◌, ◌↔◌, ◌-◌, ◌<◌, ◌≤◌, ℕ, [], Some};
ghost use Rattle.std.specs.Prelude.{Contains, IfOk, IfSome, OnOk, get_or, length, slice_get};
ghost use Rattle.cfgrammar.specs.Numbered.{core};
ghost use Rattle.cfgrammar.specs.NumberedSymbols.{sym_of};
ghost use Rattle.cfgrammar.specs.Openings.{nth_production};
ghost use Rattle.lr_states.specs.Viable.{HasNext, item_at};
ghost use Rattle.lr_states.specs.declared.kernels.Target.{Target};
ghost use Rattle.lr_states.specs.Inner.Edges.{AddsEdges, EndEdge, IsEdge, IsMadeFrom, ItemEdge};
ghost use Rattle.lr_states.specs.Inner.Edges.{ProductionEdge, RestEdge, StateEdge, TargetEdge, in_graph, rule_in};
ghost use Rattle.lr_states.specs.Inner.Reached.{Leads};

use crate::lookaheads::nodes::Nodes;
use crate::lookaheads::nullable::is_nullable;
use crate::tables::{rule_of, symbols_of};
use crate::{Item, States};
use cfgindex::ListTable;
use cfgrammar::yacc::YaccGrammar;
use cfgrammar::yacc::firsts::YaccFirsts;
use cfgrammar::{Symbol, Vob};
use std::alloc::{AllocError, Global};

/// What the edges are made from.
#[derive(Drop)]
pub(crate) struct Graph<'a> {
    pub(crate) grammar: &'a YaccGrammar<u32>,
    pub(crate) states: &'a States,
    pub(crate) nodes: &'a Nodes,
    pub(crate) firsts: &'a YaccFirsts<u32>,
    pub(crate) nullable_from: &'a [usize],
    pub(crate) used: &'a Vob,
}

impl<'a> Graph<'a> {
    /// All edges.
    ///
    /// # Errors
    ///
    /// Out of memory.
    pub(crate) fn edges(&self, alloc: Global) -> Result<ListTable<usize>, AllocError>
        requires graph { IsMadeFrom self.now }
        ensures nodes { IfOk result (λ edges. length edges ≡ self.now.nodes.now.len) }
        ensures edges { IfOk result (λ edges. (a b : ℕ) → Leads edges a b ↔ in_graph IsEdge self.now a b) }
    {
        let mut edges = ListTable::new(alloc, self.nodes.len)?;
        self.push_end(&mut edges)?;
        for production in 0..usize::from(self.grammar.prods_len()) {
            self.push_production(&mut edges, production)?;
        }
        for state in 0..self.states.len() {
            self.push_state(&mut edges, state)?;
        }
        Ok(edges)
    }

    /// The end token may come after the start rule in the first state.
    fn push_end(&self, edges: &mut ListTable<usize>) -> Result<(), AllocError>
        requires graph { IsMadeFrom self.now }
        requires nodes { length edges.old ≡ self.now.nodes.now.len }
        ensures { OnOk result (AddsEdges (in_graph EndEdge self.now) edges.old edges.new) }
    {
        if self.states.len() == 0 {
            return Ok(());
        }
        let end = usize::from(self.grammar.eof_token_idx());
        edges.push(self.nodes.next(self.states, 0, 0), end)?;
        Ok(())
    }

    /// A rule begins with what its production begins with, if that is used.
    fn push_production(
        &self,
        edges: &mut ListTable<usize>,
        production: usize,
    ) -> Result<(), AllocError>
        requires graph { IsMadeFrom self.now }
        requires nodes { length edges.old ≡ self.now.nodes.now.len }
        requires production { production < length self.now.grammar.now.productions }
        ensures { OnOk result (AddsEdges (in_graph ProductionEdge self.now production) edges.old edges.new) }
    {
        if !self.used.get(production).unwrap_or(false) {
            return Ok(());
        }
        let rule = self.nodes.begun(rule_of(self.grammar, production));
        let whole = Item {
            production,
            read: 0,
        };
        edges.push(rule, self.nodes.rest(whole))?;
        let symbols = symbols_of(self.grammar, production);
        for (read, symbol) in symbols.iter().enumerate() {
            self.push_rest(edges, Item { production, read }, *symbol)?;
        }
        Ok(())
    }

    /// What isn't read of an item begins with its next symbol; and with what comes after that if it is nullable.
    fn push_rest(
        &self,
        edges: &mut ListTable<usize>,
        item: Item,
        symbol: Symbol<u32>,
    ) -> Result<(), AllocError>
        requires graph { IsMadeFrom self.now }
        requires nodes { length edges.old ≡ self.now.nodes.now.len }
        requires next { HasNext (core self.now.grammar.now) item (sym_of (λ s. s) symbol) }
        ensures { OnOk result (AddsEdges (in_graph RestEdge self.now item (sym_of (λ s. s) symbol))
            edges.old edges.new) }
    {
        let _len = self.nodes.len;
        let node = self.nodes.rest(item);
        edges.push(node, self.nodes.shown(symbol))?;
        if is_nullable(self.firsts, symbol) {
            edges.push(node, node + 1)?;
        }
        Ok(())
    }

    /// The edges of a state's items.
    fn push_state(&self, edges: &mut ListTable<usize>, state: usize) -> Result<(), AllocError>
        requires graph { IsMadeFrom self.now }
        requires nodes { length edges.old ≡ self.now.nodes.now.len }
        requires state { state < length self.now.states.now.states }
        ensures { OnOk result (AddsEdges (in_graph StateEdge self.now state) edges.old edges.new) }
    {
        for place in 0..self.states.targets(state).len() {
            self.push_target(edges, state, place)?;
        }
        Ok(())
    }

    /// The edges of a state's items before the symbol of a target, by the items after it.
    fn push_target(
        &self,
        edges: &mut ListTable<usize>,
        state: usize,
        place: usize,
    ) -> Result<(), AllocError>
        requires graph { IsMadeFrom self.now }
        requires nodes { length edges.old ≡ self.now.nodes.now.len }
        requires state { state < length self.now.states.now.states }
        requires place { place < length (get_or self.now.states.now.targets state []) }
        ensures { OnOk result (AddsEdges (in_graph TargetEdge self.now state place) edges.old edges.new) }
    {
        let target = self.states.targets(state)[place];
        let next = self.next_at(state, place);
        let after = self.nodes.block(target.state);
        for index in 0..after.rules - after.items {
            let item = self.states.items(target.state)[index];
            self.push_item(edges, state, item, after.items + index, next)?;
        }
        Ok(())
    }

    /// The node of the rule that a target is for.
    fn next_at(&self, state: usize, place: usize) -> Option<usize>
        requires graph { IsMadeFrom self.now }
        requires state { state < length self.now.states.now.states }
        requires place { place < length (get_or self.now.states.now.targets state []) }
        ensures { (target : Target) → slice_get (get_or self.now.states.now.targets state []) place ≡ Some target
            → result ≡ rule_in self.now state place target }
    {
        if self.states.targets(state)[place].symbol < self.nodes.rules {
            Some(self.nodes.block(state).rules + place)
        } else {
            None
        }
    }

    /// The edges of an item before its last symbol was read in a state, by the item after that, and that one's node;
    /// and by the node of the symbol if it is a rule.
    fn push_item(
        &self,
        edges: &mut ListTable<usize>,
        state: usize,
        item: Item,
        after: usize,
        next: Option<usize>,
    ) -> Result<(), AllocError>
        requires graph { IsMadeFrom self.now }
        requires nodes { length edges.old ≡ self.now.nodes.now.len }
        requires state { state < length self.now.states.now.states }
        requires item { item.production < length self.now.grammar.now.productions }
        requires read { 0 < item.read }
        requires within { item.read ≤ length (nth_production (core self.now.grammar.now) item.production).symbols }
        requires before { Contains (get_or self.now.states.now.states state [])
            (item_at item.production (item.read - 1)) }
        requires after { after < self.now.nodes.now.len }
        requires next { IfSome next (λ node. node < self.now.nodes.now.len) }
        ensures { OnOk result (AddsEdges (in_graph ItemEdge self.now state item after next) edges.old edges.new) }
    {
        let before = Item {
            production: item.production,
            read: item.read - 1,
        };
        let node = self.nodes.of_item(self.states, state, before);
        edges.push(after, node)?;
        let Some(next) = next else {
            return Ok(());
        };
        edges.push(next, self.nodes.rest(item))?;
        if self.nullable_from[item.production] <= item.read {
            edges.push(next, node)?;
        }
        Ok(())
    }
}
