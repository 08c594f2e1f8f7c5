//! The states that a parser that heeds precedences comes into.

ghost use Rattle.std.specs.Prelude.{◌≡◌, ◌↔◌, ◌<◌, ℕ, Contains, IfOk, IsTrue, OnOk, length};
ghost use Rattle.cfgrammar.specs.Accessors.{IsSymbolWithin};
ghost use Rattle.cfgrammar.specs.NumberedSymbols.{sym_of};
ghost use Rattle.search.specs.Reachable.{IsReachableIn, Reaches};
ghost use Rattle.lr_conflicts.specs.Conflicts.{Goes, IsEntered};
ghost use Rattle.lr_conflicts.specs.Inner.Choices.{AreTables, GoesBy, IsPassed, IsState, items_in};

use crate::parser::{Parser, State};
use crate::tables::next_symbol;
use cfgrammar::Symbol;
use lr_states::Item;
use search::Search;
use std::alloc::AllocError;

impl<'a> Parser<'a> {
    /// A search that has reached the states that are entered.
    pub(crate) fn entered(&self) -> Result<Search, AllocError>
        requires { AreTables self.now.grammar.now self.now.lookaheads.now }
        ensures { IfOk result (λ search. (q : ℕ) → IsReachableIn search q
            ↔ IsEntered self.now.grammar.now self.now.levels.now self.now.lookaheads.now.automaton q) }
    {
        let states = self.lookaheads.states().len();
        let mut search = Search::through(self.alloc, states)?;
        if states > 0 {
            search.reach(0)?;
        }
        while let Some(state) = search.next() {
            self.reach_from(state, &mut search)?;
        }
        Ok(search)
    }

    /// Reaches the states that one symbol leads to from a state, if the symbol isn't a token whose shift is taken away.
    fn reach_from(&self, number: usize, search: &mut Search) -> Result<(), AllocError>
        requires number { number < length self.now.lookaheads.now.automaton.states }
        requires states { length search.old.reachable ≡ length self.now.lookaheads.now.automaton.states }
        requires tables { AreTables self.now.grammar.now self.now.lookaheads.now }
        ensures { OnOk result (Reaches (Goes self.now.grammar.now self.now.levels.now
            self.now.lookaheads.now.automaton number) search.old search.new) }
    {
        self.grammar.invariant_holds();
        let state = self.state(number)?;
        for item in self.items(number) {
            self.reach_after(&state, *item, search)?;
        }
        Ok(())
    }

    /// Reaches the state that the item's next symbol leads to, if it isn't a token whose shift is taken away.
    fn reach_after(
        &self,
        state: &State<'_>,
        item: Item,
        search: &mut Search,
    ) -> Result<(), AllocError>
        requires states { length search.old.reachable ≡ length self.now.lookaheads.now.automaton.states }
        requires tables { AreTables self.now.grammar.now self.now.lookaheads.now }
        requires state { IsState self.now state.now }
        requires item { Contains (items_in self.now state.now.number) item }
        ensures { OnOk result (Reaches (GoesBy self.now.grammar.now self.now.levels.now
            self.now.lookaheads.now.automaton state.now.number item) search.old search.new) }
    {
        let Some(symbol) = next_symbol(self.grammar, item) else {
            return Ok(());
        };
        if !self.is_passed(state, symbol) {
            return Ok(());
        }
        match self.lookaheads.states().goto(state.number, symbol) {
            Some(next) => search.reach(next),
            None => Ok(()),
        }
    }

    /// Whether the symbol is a rule, or a token whose shift isn't taken away.
    fn is_passed(&self, state: &State<'_>, symbol: Symbol<u32>) -> bool
        requires symbol { IsSymbolWithin (λ s. s) self.now.grammar.now symbol }
        requires state { IsState self.now state.now }
        ensures { IsTrue result ↔ IsPassed self.now.grammar.now self.now.levels.now
            (items_in self.now state.now.number)
            (sym_of (λ s. s) symbol) }
    {
        match symbol {
            Symbol::Rule(_) => true,
            Symbol::Token(token) => self.taker(state, usize::from(token)).is_none(),
        }
    }
}
