//! What a parser can do in a state, and what precedence takes from it.

ghost use Rattle.std.specs.Prelude.{◌≡◌, ◌↔◌, ◌<◌, ℕ, Contains, IfOk, IsTrue, MatchOption, false, length};
ghost use Rattle.std.specs.Prelude.{slice_index_or};
ghost use Rattle.std.specs.List.Sorted.{IsStrictlyIncreasing};
ghost use Rattle.lr_conflicts.specs.Conflicts.{TakesShift, read_item};
ghost use Rattle.lr_conflicts.specs.Inner.Choices.{AreTables, IsFirstTaker, IsReductionAt, IsState, Takes, items_in};
ghost use Rattle.lr_conflicts.specs.Precedences.{settled, token_precedence};

use crate::precedences::{Settled, verdict};
use crate::tables::{is_reducible, production_precedence, read_item, token_precedence};
use cfgrammar::Vob;
use cfgrammar::bison::Associativity;
use cfgrammar::yacc::{Precedence, YaccGrammar};
use lr_states::Item;
use lr_states::lookaheads::Lookaheads;
use std::alloc::{AllocError, Global};

/// What a parser goes by: a grammar, how the operators of its levels of precedences associate, and the lookaheads of
/// its states.
#[derive(Drop)]
pub(crate) struct Parser<'a> {
    pub(crate) alloc: Global,
    pub(crate) grammar: &'a YaccGrammar<u32>,
    pub(crate) levels: &'a [Associativity],
    pub(crate) lookaheads: &'a Lookaheads,
}

/// A production that can be reduced in a state.
#[derive(Drop)]
pub(crate) struct Reduction<'a> {
    pub(crate) production: usize,
    /// A bit for each token, which says whether it may come after the production.
    tokens: &'a Vob,
    precedence: Option<Precedence>,
}

impl<'a> Reduction<'a> {
    /// Whether the token may come after the production.
    pub(crate) fn looks_at(&self, token: usize) -> bool
        ensures { result ≡ slice_index_or self.now.tokens.now token false }
    {
        self.tokens.get(token).unwrap_or(false)
    }
}

/// A state, with the productions that can be reduced in it, in ascending order.
#[derive(Drop)]
pub(crate) struct State<'a> {
    pub(crate) number: usize,
    pub(crate) reductions: Vec<Reduction<'a>>,
}

impl<'a> Parser<'a> {
    /// The items of a state.
    pub(crate) fn items(&self, number: usize) -> &'a [Item]
        requires { number < length self.now.lookaheads.now.automaton.states }
        ensures { result.now ≡ items_in self.now number }
    {
        self.lookaheads.states().items(number)
    }

    /// A state.
    pub(crate) fn state(&self, number: usize) -> Result<State<'a>, AllocError>
        requires number { number < length self.now.lookaheads.now.automaton.states }
        requires tables { AreTables self.now.grammar.now self.now.lookaheads.now }
        ensures number { IfOk result (λ s. s.number ≡ number) }
        ensures state { IfOk result (IsState self.now) }
    {
        let mut reductions = Vec::new(self.alloc);
        for production in &read_productions(self.alloc, self.grammar, self.items(number))? {
            reductions.push(self.reduction(number, *production))?;
        }
        Ok(State { number, reductions })
    }

    /// A production that can be reduced in a state.
    fn reduction(&self, state: usize, production: usize) -> Reduction<'a>
        requires state { state < length self.now.lookaheads.now.automaton.states }
        requires item { Contains
            (items_in self.now state)
            (read_item self.now.grammar.now production) }
        ensures production { result.production ≡ production }
        ensures reduction { IsReductionAt self.now.grammar.now self.now.lookaheads.now state result }
    {
        let item = read_item(self.grammar, production);
        Reduction {
            production,
            tokens: self.lookaheads.tokens(state, item).unwrap(),
            precedence: production_precedence(self.grammar, production),
        }
    }

    /// What precedence says where the token could be shifted and the production reduced.
    pub(crate) fn verdict(&self, reduction: &Reduction<'_>, token: usize) -> Option<Settled>
        requires { token < length self.now.grammar.now.tokens }
        ensures { result ≡ settled self.now.levels.now (token_precedence self.now.grammar.now token)
            reduction.now.precedence }
    {
        verdict(
            self.levels,
            token_precedence(self.grammar, token),
            reduction.precedence,
        )
    }

    /// Whether precedence takes the token's shift away for the sake of the production.
    fn takes_shift(&self, reduction: &Reduction<'_>, token: usize) -> bool
        requires { token < length self.now.grammar.now.tokens }
        ensures { IsTrue result ↔ Takes self.now.grammar.now self.now.levels.now token reduction.now }
    {
        reduction.looks_at(token)
            && matches!(
                self.verdict(reduction, token),
                Some(Settled::Reduce | Settled::Neither)
            )
    }

    /// The first production for whose sake precedence takes the token's shift away.
    pub(crate) fn taker(&self, state: &State<'_>, token: usize) -> Option<usize>
        requires token { token < length self.now.grammar.now.tokens }
        requires state { IsState self.now state.now }
        ensures { MatchOption result
            ((p : ℕ) → TakesShift self.now.grammar.now self.now.levels.now
            (items_in self.now state.now.number) token p → ⊥)
            (IsFirstTaker self.now.grammar.now self.now.levels.now
            (items_in self.now state.now.number) token) }
    {
        for reduction in &state.reductions {
            if self.takes_shift(reduction, token) {
                return Some(reduction.production);
            }
        }
        None
    }
}

/// The productions that can be reduced in a state with these items, in ascending order.
fn read_productions(
    alloc: Global,
    grammar: &YaccGrammar<u32>,
    items: &[Item],
) -> Result<Vec<usize>, AllocError>
    ensures all { IfOk result (λ list. (p : ℕ) → Contains list.items p
        ↔ ((p ≡ grammar.now.start_production → ⊥) × Contains items.now (read_item grammar.now p))) }
    ensures ascending { IfOk result (λ list. IsStrictlyIncreasing list.items) }
{
    let mut productions = Vec::new(alloc);
    for item in items {
        if is_reducible(grammar, *item) {
            productions.push(item.production)?;
        }
    }
    productions.sort_unstable();
    productions.dedup();
    Ok(productions)
}
