//! The conflicts of the states, in order.

ghost use Rattle.std.specs.Prelude.{◌≡◌, ◌↔◌, ◌<◌, ◌+◌, ℕ, IfOk, IsTrue, None, OnOk, false, length, slice_index_or};
ghost use Rattle.lr_conflicts.specs.Conflicts.{AreConflicts, CanShift, IsEntered};
ghost use Rattle.lr_conflicts.specs.Inner.Choices.{AreTables, IsKept, IsState, IsTurn, Loses, ShiftsBefore, items_in};
ghost use Rattle.lr_conflicts.specs.Inner.Listed.{AreListed, AreReduced};

use crate::Conflict;
use crate::parser::{Parser, Reduction, State};
use crate::precedences::Settled;
use crate::tables::shifted_token;
use cfgrammar::Vob;
use std::alloc::AllocError;

/// What becomes of a token in a state.
#[derive(Clone, Copy)]
pub(crate) struct Turn {
    token: usize,
    can_shift: bool,
    /// If it can be shifted, the first production for whose sake precedence takes that away.
    taker: Option<usize>,
}

impl Turn {
    /// Whether the token is shifted.
    fn is_shifted(self) -> bool
        ensures { IsTrue result ↔ (IsTrue self.can_shift × (self.taker ≡ None)) }
    {
        self.can_shift && self.taker.is_none()
    }

    /// Whether the token can be shifted and no production before this one takes that away.
    fn shifts_before(self, production: usize) -> bool
        ensures { IsTrue result ↔ ShiftsBefore self production }
    {
        self.can_shift && self.taker.is_none_or(|taker| production <= taker)
    }
}

impl<'a> Parser<'a> {
    /// The conflicts of the states that are entered, in order.
    pub(crate) fn conflicts(&self) -> Result<Vec<Conflict>, AllocError>
        requires { AreTables self.now.grammar.now self.now.lookaheads.now }
        ensures { IfOk result (λ list. AreConflicts self.now.grammar.now self.now.levels.now
            self.now.lookaheads.now.automaton list.items) }
    {
        let entered = self.entered()?;
        let mut conflicts = Vec::new(self.alloc);
        for number in 0..self.lookaheads.states().len() {
            if entered.is_reachable(number) {
                self.push_conflicts(number, &mut conflicts)?;
            }
        }
        Ok(conflicts)
    }

    /// Pushes the conflicts of a state.
    fn push_conflicts(&self, number: usize, conflicts: &mut Vec<Conflict>) -> Result<(), AllocError>
        requires tables { AreTables self.now.grammar.now self.now.lookaheads.now }
        requires entered { IsEntered self.now.grammar.now self.now.levels.now self.now.lookaheads.now.automaton
            number }
        requires listed { AreListed self.now.grammar.now self.now.levels.now self.now.lookaheads.now.automaton
            number 0 conflicts.old.items }
        ensures { OnOk result (AreListed self.now.grammar.now self.now.levels.now
            self.now.lookaheads.now.automaton (number + 1) 0 conflicts.new.items) }
    {
        // A single item has nothing to conflict with.
        if self.items(number).len() < 2 {
            return Ok(());
        }
        let state = self.state(number)?;
        if state.reductions.is_empty() {
            return Ok(());
        }
        let shifts = self.shifts(number)?;
        let mut reduced = Vec::new(self.alloc);
        for token in 0..usize::from(self.grammar.tokens_len()) {
            let turn = self.turn(&state, &shifts, token);
            self.push_conflict(&state, turn, &mut reduced, conflicts)?;
        }
        Ok(())
    }

    /// The tokens that can be shifted in a state: a bit for each token.
    fn shifts(&self, number: usize) -> Result<Vob, AllocError>
        requires { number < length self.now.lookaheads.now.automaton.states }
        ensures { IfOk result (λ bits. (t : ℕ) → t < length self.now.grammar.now.tokens
            → IsTrue (slice_index_or bits t false)
            ↔ CanShift self.now.grammar.now self.now.levels.now (items_in self.now number) t) }
    {
        let tokens = usize::from(self.grammar.tokens_len());
        let mut shifts = Vob::from_elem(self.alloc, false, tokens)?;
        for item in self.items(number) {
            if let Some(token) = shifted_token(self.grammar, *item) {
                shifts.set(token, true);
            }
        }
        Ok(shifts)
    }

    /// What becomes of a token in a state in which these tokens can be shifted.
    fn turn(&self, state: &State<'_>, shifts: &Vob, token: usize) -> Turn
        requires token { token < length self.now.grammar.now.tokens }
        requires state { IsState self.now state.now }
        requires shifts { IsTrue (slice_index_or shifts.now token false)
            ↔ CanShift self.now.grammar.now self.now.levels.now (items_in self.now state.now.number) token }
        ensures token { result.token ≡ token }
        ensures turn { IsTurn self.now.grammar.now self.now.levels.now (items_in self.now state.now.number) result }
    {
        let can_shift = shifts.get(token).unwrap_or(false);
        let taker = if can_shift {
            self.taker(state, token)
        } else {
            None
        };
        Turn {
            token,
            can_shift,
            taker,
        }
    }

    /// Pushes the conflict of a state at a token, if there is one. Uses `reduced` for the productions that are reduced.
    fn push_conflict(
        &self,
        state: &State<'_>,
        turn: Turn,
        reduced: &mut Vec<usize>,
        conflicts: &mut Vec<Conflict>,
    ) -> Result<(), AllocError>
        requires state { IsState self.now state.now }
        requires turn { IsTurn self.now.grammar.now self.now.levels.now (items_in self.now state.now.number) turn }
        requires entered { IsEntered self.now.grammar.now self.now.levels.now self.now.lookaheads.now.automaton
            state.now.number }
        requires listed { AreListed self.now.grammar.now self.now.levels.now self.now.lookaheads.now.automaton
            state.now.number turn.token conflicts.old.items }
        ensures { OnOk result (AreListed self.now.grammar.now self.now.levels.now
            self.now.lookaheads.now.automaton state.now.number (turn.token + 1) conflicts.new.items) }
    {
        self.list_reduced(state, turn, reduced)?;
        let shifts = turn.is_shifted();
        if reduced.len() + usize::from(shifts) < 2 {
            return Ok(());
        }
        conflicts.push(Conflict {
            state: state.number,
            token: turn.token,
            shifts,
            productions: reduced.to_vec(self.alloc)?,
        })?;
        Ok(())
    }

    /// Makes `reduced` the list of the productions that are reduced at the token.
    fn list_reduced(
        &self,
        state: &State<'_>,
        turn: Turn,
        reduced: &mut Vec<usize>,
    ) -> Result<(), AllocError>
        requires state { IsState self.now state.now }
        requires turn { IsTurn self.now.grammar.now self.now.levels.now (items_in self.now state.now.number) turn }
        ensures { OnOk result (AreReduced self.now.grammar.now self.now.levels.now
            (items_in self.now state.now.number) turn.token reduced.new.items) }
    {
        reduced.clear();
        for reduction in &state.reductions {
            if self.is_reduced(turn, reduction) {
                reduced.push(reduction.production)?;
            }
        }
        Ok(())
    }

    /// Whether the production is reduced at the token.
    fn is_reduced(&self, turn: Turn, reduction: &Reduction<'_>) -> bool
        requires { turn.token < length self.now.grammar.now.tokens }
        ensures { IsTrue result ↔ IsKept self.now.grammar.now self.now.levels.now turn reduction.now }
    {
        reduction.looks_at(turn.token) && !self.is_taken_away(turn, reduction)
    }

    /// Whether precedence takes the production away from a shift that no earlier one has taken.
    fn is_taken_away(&self, turn: Turn, reduction: &Reduction<'_>) -> bool
        requires { turn.token < length self.now.grammar.now.tokens }
        ensures { IsTrue result ↔ Loses self.now.grammar.now self.now.levels.now turn reduction.now }
    {
        turn.shifts_before(reduction.production)
            && matches!(
                self.verdict(reduction, turn.token),
                Some(Settled::Shift | Settled::Neither)
            )
    }
}
