//! Compares productions by what the choices give for them, two at a time, token by token.

ghost use Rattle.std.specs.Prelude.{◌≡◌, ℕ, ◌<◌, ◌++◌, ◌∷◌, [], List, IfOk, IfSome, MatchOption, OnOk, length, map};
ghost use Rattle.std.specs.Prelude.{reverse, true};
ghost use Rattle.cfgtables.specs.NumberedSymbols.{sym_of};
ghost use Rattle.cfgchoices.specs.FirstSentence.{lexicographic};
ghost use Rattle.cfgchoices.specs.Inner.Candidates.{Choosing, FirstTokensAre, Gives, IsCandidate, Pends, left_to_open};
ghost use Rattle.cfgchoices.specs.Inner.Candidates.{candidates_of, sequence};
ghost use Rattle.std.specs.Ordering.{is_ne};

use crate::first::candidates::Chooser;
use crate::first::optimal::OptimalTables;
use cfgindex::{PIdx, Storage, Symbol, TIdx};
use cfgtables::Tables;
use std::alloc::{AllocError, Global};
use std::cmp::Ordering;

/// Adds the symbols after the pending ones, in reverse.
///
/// # Errors
///
/// Out of memory.
fn push_turned<S: Storage>(
    pending: &mut Vec<Symbol<S>>,
    symbols: &[Symbol<S>],
) -> Result<(), AllocError>
    ensures { OnOk result (pending.new.items ≡ pending.old.items ++ reverse symbols.now) }
{
    pending.extend(symbols.iter().rev().copied())
}

/// Compares what begins with these symbols lexicographically, if both begin with tokens that differ.
fn first_tokens<S: Storage>(ones: &[Symbol<S>], others: &[Symbol<S>]) -> Ordering
    ensures { is_ne result ≡ true → FirstTokensAre (map (sym_of S.number) ones.now)
        (map (sym_of S.number) others.now) result }
{
    if let Some(Symbol::Token(one)) = ones.first() {
        if let Some(Symbol::Token(other)) = others.first() {
            return one.cmp(other);
        }
    }
    Ordering::Equal
}

impl<'a, S: Storage, T: Tables<S>> OptimalTables<'a, S, T> {
    /// The symbols of a production as pending symbols: in reverse.
    ///
    /// # Errors
    ///
    /// Out of memory.
    fn pending(&self, alloc: Global, p: PIdx<S>) -> Result<Vec<Symbol<S>>, AllocError>
        requires { S.number p.0 < length self.now.tables.grammar.productions }
        ensures { IfOk result (λ pending.
            reverse (map (sym_of S.number) pending.items) ≡ sequence self.now.tables (S.number p.0)) }
    {
        let mut pending = Vec::new(alloc);
        push_turned(&mut pending, self.symbols(p))?;
        Ok(pending)
    }
}

impl<S: Storage> Chooser<S> {
    /// The next token that the choices give for the pending symbols, the last of which comes first.
    ///
    /// # Errors
    ///
    /// Out of memory.
    fn next_token<T: Tables<S>>(
        &self,
        optimal: &OptimalTables<S, T>,
        pending: &mut Vec<Symbol<S>>,
    ) -> Result<Option<TIdx<S>>, AllocError>
        requires choosing { Choosing optimal.now.tables (candidates_of S.number self.now).choices self.now.number }
        requires given { (w : List ℕ) × Pends optimal.now.tables (candidates_of S.number self.now).choices
            (map (sym_of S.number) pending.old.items) w }
        ensures next { IfOk result (λ token. (w : List ℕ)
            → Pends optimal.now.tables (candidates_of S.number self.now).choices
            (map (sym_of S.number) pending.old.items) w
            → MatchOption token (w ≡ []) (λ t. (v : List ℕ) × (w ≡ S.number t.0 ∷ v)
            × Pends optimal.now.tables (candidates_of S.number self.now).choices
            (map (sym_of S.number) pending.new.items) v)) }
        ensures less { IfOk result (λ token. IfSome token (λ _.
            left_to_open optimal.now.tables (candidates_of S.number self.now).choices
            (map (sym_of S.number) pending.new.items)
            < left_to_open optimal.now.tables (candidates_of S.number self.now).choices
            (map (sym_of S.number) pending.old.items))) }
    {
        optimal.invariant_holds();
        while let Some(symbol) = pending.pop() {
            match symbol {
                Symbol::Token(token) => return Ok(Some(token)),
                Symbol::Rule(rule) => {
                    if let Some((p, _)) = self.choices[usize::from(rule)] {
                        push_turned(pending, optimal.symbols(p))?;
                    }
                }
            }
        }
        Ok(None)
    }

    /// Compares lexicographically what the choices give for two candidates.
    ///
    /// # Errors
    ///
    /// Out of memory.
    pub(crate) fn compare<T: Tables<S>>(
        &self,
        optimal: &OptimalTables<S, T>,
        one: PIdx<S>,
        other: PIdx<S>,
    ) -> Result<Ordering, AllocError>
        requires choosing { Choosing optimal.now.tables (candidates_of S.number self.now).choices self.now.number }
        requires one { IsCandidate optimal.now (candidates_of S.number self.now).choices self.now.number self.now.cost
            (S.number one.0) }
        requires other { IsCandidate optimal.now (candidates_of S.number self.now).choices self.now.number self.now.cost
            (S.number other.0) }
        ensures { IfOk result (λ ordering. (u v : List ℕ)
            → Gives optimal.now.tables (candidates_of S.number self.now).choices
            (sequence optimal.now.tables (S.number one.0)) u
            → Gives optimal.now.tables (candidates_of S.number self.now).choices
            (sequence optimal.now.tables (S.number other.0)) v
            → ordering ≡ lexicographic u v) }
    {
        let first = first_tokens(optimal.symbols(one), optimal.symbols(other));
        if first.is_ne() {
            return Ok(first);
        }
        let mut ones = optimal.pending(self.alloc, one)?;
        let mut others = optimal.pending(self.alloc, other)?;
        while let Some(token) = self.next_token(optimal, &mut ones)? {
            let ordering = Some(token).cmp(&self.next_token(optimal, &mut others)?);
            if ordering.is_ne() {
                return Ok(ordering);
            }
        }
        Ok(None.cmp(&self.next_token(optimal, &mut others)?))
    }
}
