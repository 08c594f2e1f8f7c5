//! The numbers of the nodes of a graph: those of the tokens come first, then those of the rules, then one for the start
//! rule in the first state, then those of each production, and then those of each state.

ghost use Rattle.std.specs.Prelude.{◌≡◌, ◌↔◌, ◌+◌, ◌<◌, ◌≤◌, ℕ, [], Some, Contains, IfOk, IfSome, get_or, length};
ghost use Rattle.std.specs.Prelude.{position, slice_get};
ghost use Rattle.cfgrammar.specs.Grammar.{Grammar};
ghost use Rattle.cfgrammar.specs.Numbered.{core};
ghost use Rattle.cfgrammar.specs.NumberedSymbols.{sym_of};
ghost use Rattle.cfgrammar.specs.Openings.{nth_production};
ghost use Rattle.lr_states.specs.Automaton.{AreAscending, HaveTargets};
ghost use Rattle.lr_states.specs.Viable.{AreSorted};
ghost use Rattle.lr_states.specs.declared.Item.{Item};
ghost use Rattle.lr_states.specs.declared.kernels.Target.{Target};
ghost use Rattle.lr_states.specs.Lookaheads.{is_item};
ghost use Rattle.lr_states.specs.Inner.Graph.{next};
ghost use Rattle.lr_states.specs.Inner.Numbers.{AreNumbers, AreOfGrammar, AreReady, AreRests, IsBlock, IsNode};
ghost use Rattle.lr_states.specs.Inner.Numbers.{block_of, is_before, item_number, number, numbers_of};
ghost use Rattle.lr_states.specs.Inner.Numbers.{rest_number, shown_number};

use crate::kernels::place_of_symbol;
use crate::tables::{rule_of, symbols_of};
use crate::{Item, States, Target};
use cfgrammar::Symbol;
use cfgrammar::yacc::YaccGrammar;
use std::alloc::{AllocError, Global};

/// The nodes of a state.
#[derive(Clone, Copy)]
pub(crate) struct Block {
    /// The first node of its items with symbols read.
    pub(crate) items: usize,
    /// The first node of the rules that are next in it.
    pub(crate) rules: usize,
    /// The first node after these.
    pub(crate) end: usize,
}

/// How nodes are numbered.
#[derive(Drop)]
pub(crate) struct Nodes {
    /// How many tokens there are.
    pub(crate) tokens: usize,
    /// How many rules there are.
    pub(crate) rules: usize,
    /// For each production its rule.
    owners: Vec<usize>,
    /// For each production its first node, and then the first node after all of these.
    rests: Vec<usize>,
    /// For each state its nodes.
    blocks: Vec<Block>,
    /// How many nodes there are.
    pub(crate) len: usize,
}

impl Nodes {
    /// The numbers of the nodes for the states of a grammar.
    ///
    /// # Errors
    ///
    /// Out of memory.
    pub(crate) fn of(
        alloc: Global,
        grammar: &YaccGrammar<u32>,
        states: &States,
    ) -> Result<Self, AllocError>
        requires targets { HaveTargets (core grammar.now) states.now }
        requires sorted { (q : ℕ) → q < length states.now.states → AreSorted (get_or states.now.states q []) }
        ensures { IfOk result (λ x. AreNumbers (core grammar.now) states.now (numbers_of x)) }
    {
        let tokens = usize::from(grammar.tokens_len());
        let rules = usize::from(grammar.rules_len());
        let rests = rests(alloc, grammar, tokens + rules + 1)?;
        let mut blocks = Vec::with_capacity(alloc, states.len())?;
        let mut len = rests[usize::from(grammar.prods_len())];
        for state in 0..states.len() {
            let block = block_at(len, states.items(state), states.targets(state), rules).ok_or(
                AllocError,
            )?;
            len = block.end;
            blocks.push(block)?;
        }
        Ok(Nodes {
            tokens,
            rules,
            owners: owners(alloc, grammar)?,
            rests,
            blocks,
            len,
        })
    }

    /// The nodes of a state.
    pub(crate) fn block(&self, state: usize) -> Block
        requires { state < length self.now.blocks.items }
        ensures { result ≡ block_of (numbers_of self.now) state }
    {
        self.blocks[state]
    }

    /// The node of a symbol that others may begin with.
    pub(crate) fn shown(&self, symbol: Symbol<u32>) -> usize
        requires { shown_number (numbers_of self.now) (sym_of (λ s. s) symbol) < self.now.len }
        ensures { result ≡ shown_number (numbers_of self.now) (sym_of (λ s. s) symbol) }
    {
        match symbol {
            Symbol::Rule(rule) => self.begun(usize::from(rule)),
            Symbol::Token(token) => usize::from(token),
        }
    }

    /// The node of a rule that others may begin with.
    pub(crate) fn begun(&self, rule: usize) -> usize
        requires { self.now.tokens + rule < self.now.len }
        ensures { result ≡ self.now.tokens + rule }
    {
        self.tokens + rule
    }

    /// The node for the symbols of an item that aren't read.
    pub(crate) fn rest(&self, item: Item) -> usize
        requires production { item.production < length self.now.rests.items }
        requires node { rest_number (numbers_of self.now) item < self.now.len }
        ensures { result ≡ rest_number (numbers_of self.now) item }
    {
        let _len = self.len;
        self.rests[item.production] + item.read
    }

    /// The node of a rule that is next in a state.
    pub(crate) fn next(&self, states: &States, state: usize, rule: usize) -> usize
        requires { (g : Grammar) × AreReady g states.now (numbers_of self.now) × IsNode g states.now (next state rule) }
        ensures { result ≡ number (numbers_of self.now) states.now (next state rule) }
    {
        let _len = self.len;
        match place_of_symbol(states.targets(state), rule) {
            Some(place) => self.block(state).rules + place,
            None => self.tokens + self.rules,
        }
    }

    /// The node of an item of a state.
    pub(crate) fn of_item(&self, states: &States, state: usize, item: Item) -> usize
        requires ready { AreOfGrammar states.now (numbers_of self.now) }
        requires state { state < length states.now.states }
        requires item { Contains (get_or states.now.states state []) item }
        ensures { result ≡ item_number (numbers_of self.now) states.now state item }
    {
        let _len = self.len;
        if item.read == 0 {
            self.next(states, state, self.owners[item.production])
        } else {
            self.block(state).items + place_of_item(states.items(state), item).unwrap()
        }
    }
}

/// For each production its rule.
fn owners(alloc: Global, grammar: &YaccGrammar<u32>) -> Result<Vec<usize>, AllocError>
    ensures count { IfOk result (λ owners. length owners.items ≡ length grammar.now.productions) }
    ensures owners { IfOk result (λ owners. (p : ℕ) → p < length grammar.now.productions
        → get_or owners.items p 0 ≡ (nth_production (core grammar.now) p).rule) }
{
    let mut owners = Vec::new(alloc);
    for production in 0..usize::from(grammar.prods_len()) {
        owners.push(rule_of(grammar, production))?;
    }
    Ok(owners)
}

/// For each production its first node, from this one on, and then the first node after all of these. A production has
/// a node for each of its symbols, and one for none of them.
fn rests(alloc: Global, grammar: &YaccGrammar<u32>, first: usize) -> Result<Vec<usize>, AllocError>
    ensures { IfOk result (λ rests. AreRests (core grammar.now) first rests.items) }
{
    let mut rests = Vec::new(alloc);
    let mut end = first;
    rests.push(end)?;
    for production in 0..usize::from(grammar.prods_len()) {
        let count = symbols_of(grammar, production).len() + 1;
        end = end.checked_add(count).ok_or(AllocError)?;
        rests.push(end)?;
    }
    Ok(rests)
}

/// The nodes of a state with these items and targets, from this one on. There are so many rules.
fn block_at(first: usize, items: &[Item], targets: &[Target], rules: usize) -> Option<Block>
    requires sorted { AreSorted items.now }
    requires ascending { AreAscending targets.now }
    ensures first { IfSome result (λ block. block.items ≡ first) }
    ensures block { IfSome result (IsBlock rules items.now targets.now) }
{
    let next = first.checked_add(count_read(items))?;
    let end = next.checked_add(count_next(targets, rules))?;
    Some(Block {
        items: first,
        rules: next,
        end,
    })
}

/// How many of a state's items have symbols read. They are the first ones.
fn count_read(items: &[Item]) -> usize
    requires { AreSorted items.now }
    ensures within { result ≤ length items.now }
    ensures first { (i : ℕ) (item : Item) → slice_get items.now i ≡ Some item → (0 < item.read) ↔ (i < result) }
{
    items.partition_point(|item| 0 < item.read)
}

/// How many of a state's targets are for rules. They are the first ones.
fn count_next(targets: &[Target], rules: usize) -> usize
    requires { AreAscending targets.now }
    ensures within { result ≤ length targets.now }
    ensures first { (i : ℕ) (target : Target) → slice_get targets.now i ≡ Some target
        → (target.symbol < rules) ↔ (i < result) }
{
    targets.partition_point(|target| target.symbol < rules)
}

/// The index of an item, if it is among these.
pub(crate) fn place_of_item(items: &[Item], item: Item) -> Option<usize>
    requires { AreSorted items.now }
    ensures { result ≡ position (is_item item) items.now }
{
    let place = items.partition_point(|other| is_before(*other, item));
    if place < items.len() && items[place] == item {
        Some(place)
    } else {
        None
    }
}

/// Whether the first item comes before the second one in a state.
fn is_before(a: Item, b: Item) -> bool
    ensures { result ≡ is_before a b }
{
    b.read < a.read || (a.read == b.read && a.production < b.production)
}
