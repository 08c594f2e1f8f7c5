//! Candidates of one cost: each rule's choice is the candidate that gives the lexicographically first sentence.

ghost use Rattle.std.specs.Prelude.{◌≡◌, ℕ, ◌<◌, ◌≤◌, IfOk, MatchBool, MatchOption, OnOk, false, length};
ghost use Rattle.std.specs.Prelude.{slice_index_or, true};
ghost use Rattle.cfgchoices.specs.Inner.Lists.{IsIn};
ghost use Rattle.cfgchoices.specs.Inner.Candidates.{Adds, HandlesChains, HasList, IsCandidate};
ghost use Rattle.cfgchoices.specs.Inner.Candidates.{IsDrained, IsHandled};
ghost use Rattle.cfgchoices.specs.Inner.Candidates.{Known, AreCandidates, NotAfter, Nominating};
ghost use Rattle.cfgchoices.specs.Inner.Candidates.{Takes, is_sole, left_to_choose};
ghost use Rattle.cfgchoices.specs.Inner.Candidates.{candidates_of, owner, sequence, waiting};

use crate::first::lists::Listed;
use crate::first::optimal::OptimalTables;
use cfgindex::{PIdx, Storage};
use cfgtables::Tables;
use std::alloc::{AllocError, Global};
use std::collections::VecDeque;

/// Choices of productions, and candidates.
#[derive(Drop)]
pub(crate) struct Chooser<S: Storage> {
    pub(crate) alloc: Global,
    /// For each rule its choice, with the number of choices made before it.
    pub(crate) choices: Vec<Option<(PIdx<S>, u32)>>,
    pub(crate) number: u32,
    /// The cost of the current candidates.
    pub(crate) cost: usize,
    /// Candidates that are the only optimal production of their rule.
    pub(crate) ready: Vec<PIdx<S>>,
    /// The other candidates, except those that gave no less than an earlier one of their rule, in descending
    /// lexicographic order.
    pub(crate) sorted: VecDeque<PIdx<S>>,
    /// For each rule the last candidate that was added to `sorted`.
    pub(crate) foremost: Vec<Option<PIdx<S>>>,
}

/// Which index of the range to probe next: its last, its first, and then the middle one.
fn probe(low: usize, high: usize, len: usize) -> usize
    requires { low < high }
    ensures from { low ≤ result }
    ensures to { result < high }
{
    if high == len {
        high - 1
    } else if low == 0 {
        0
    } else {
        low + (high - low) / 2
    }
}

impl<S: Storage> Chooser<S> {
    /// The index at which to insert a production into the sorted candidates: after those that give nothing less.
    ///
    /// # Errors
    ///
    /// Out of memory.
    fn index<T: Tables<S>>(
        &self,
        optimal: &OptimalTables<S, T>,
        p: PIdx<S>,
    ) -> Result<usize, AllocError>
        requires candidates { AreCandidates optimal.now (candidates_of S.number self.now) }
        requires nominated { IsCandidate optimal.now
            (candidates_of S.number self.now).choices self.now.number self.now.cost
            (S.number p.0) }
        ensures within { IfOk result (λ index. index ≤ length self.now.sorted.items) }
        ensures before { IfOk result (λ index. (i : ℕ) → i < index → NotAfter optimal.now.tables
            (candidates_of S.number self.now).choices (sequence optimal.now.tables (S.number p.0))
            (sequence optimal.now.tables (slice_index_or (candidates_of S.number self.now).sorted i 0))) }
        ensures after { IfOk result (λ index. (i : ℕ) → index ≤ i → i < length self.now.sorted.items
            → NotAfter optimal.now.tables (candidates_of S.number self.now).choices
            (sequence optimal.now.tables (slice_index_or (candidates_of S.number self.now).sorted i 0))
            (sequence optimal.now.tables (S.number p.0))) }
    {
        let mut low = 0;
        let mut high = self.sorted.len();
        while low < high {
            let middle = probe(low, high, self.sorted.len());
            if self.compare(optimal, self.sorted[middle], p)?.is_lt() {
                high = middle;
            } else {
                low = middle + 1;
            }
        }
        Ok(low)
    }

    /// Whether a choice of the rule, or a candidate that waits for it, gives nothing greater.
    ///
    /// # Errors
    ///
    /// Out of memory.
    fn is_covered<T: Tables<S>>(
        &self,
        optimal: &OptimalTables<S, T>,
        p: PIdx<S>,
    ) -> Result<bool, AllocError>
        requires nominating { Nominating optimal.now (candidates_of S.number self.now) }
        requires nominated { IsCandidate optimal.now
            (candidates_of S.number self.now).choices self.now.number self.now.cost
            (S.number p.0) }
        requires several { is_sole optimal.now (owner optimal.now.tables (S.number p.0)) ≡ false }
        ensures { IfOk result (λ is. is ≡ true
            → IsHandled optimal.now.tables (candidates_of S.number self.now) (S.number p.0)) }
    {
        optimal.invariant_holds();
        let rule = usize::from(optimal.rule_of(p));
        if self.choices[rule].is_some() {
            return Ok(true);
        }
        match self.foremost[rule] {
            Some(foremost) => {
                let ordering = self.compare(optimal, foremost, p)?;
                Ok(ordering.is_le())
            }
            None => Ok(false),
        }
    }

    /// Adds a production to the candidates of its rule.
    ///
    /// # Errors
    ///
    /// Out of memory.
    fn nominate<T: Tables<S>>(
        &mut self,
        optimal: &OptimalTables<S, T>,
        p: PIdx<S>,
    ) -> Result<(), AllocError>
        requires nominating { Nominating optimal.now (candidates_of S.number self.old) }
        requires nominated { IsCandidate optimal.now
            (candidates_of S.number self.old).choices self.old.number self.old.cost
            (S.number p.0) }
        ensures nominating { OnOk result (Nominating optimal.now (candidates_of S.number self.new)) }
        ensures adds { OnOk result (Adds optimal.now.tables (λ q. q ≡ S.number p.0) 1 (candidates_of S.number self.old)
            (candidates_of S.number self.new)) }
    {
        let rule = optimal.rule_of(p);
        if optimal.is_sole(rule) {
            self.ready.push(p)?;
            return Ok(());
        }
        if self.is_covered(optimal, p)? {
            return Ok(());
        }
        let index = self.index(optimal, p)?;
        self.sorted.insert(index, p)?;
        self.foremost[usize::from(rule)] = Some(p);
        Ok(())
    }

    /// Adds each production of a list to the candidates of its rule.
    ///
    /// # Errors
    ///
    /// Out of memory.
    pub(crate) fn nominate_listed<T: Tables<S>>(
        &mut self,
        optimal: &OptimalTables<S, T>,
        listed: Listed<S>,
    ) -> Result<(), AllocError>
        requires list { HasList S.number optimal.now listed }
        requires nominating { Nominating optimal.now (candidates_of S.number self.old) }
        requires nominated { (p : ℕ) → IsIn S.number optimal.now.tables listed p → IsCandidate optimal.now
            (candidates_of S.number self.old).choices self.old.number self.old.cost p }
        ensures nominating { OnOk result (Nominating optimal.now (candidates_of S.number self.new)) }
        ensures adds { OnOk result (Adds optimal.now.tables (IsIn S.number optimal.now.tables listed)
            (length optimal.now.tables.grammar.productions) (candidates_of S.number self.old)
            (candidates_of S.number self.new)) }
    {
        let mut next = optimal.first(listed);
        while let Some(p) = next {
            self.nominate(optimal, p)?;
            next = optimal.next(p);
        }
        Ok(())
    }

    /// Removes the candidate to choose next.
    fn next(&mut self) -> Option<PIdx<S>>
        ensures { (k : Known) → AreCandidates k (candidates_of S.number self.old)
            → MatchOption result (IsDrained (candidates_of S.number self.old) (candidates_of S.number self.new))
            (λ p. Takes k (S.number p.0) (candidates_of S.number self.old) (candidates_of S.number self.new)) }
    {
        if let Some(p) = self.ready.pop() {
            return Some(p);
        }
        let p = self.sorted.pop_back()?;
        Some(p)
    }

    /// Makes the next candidate the choice of its rule, unless the rule has one; then adds the chain productions that
    /// lead to the rule to the candidates. Returns whether there was a candidate.
    ///
    /// # Errors
    ///
    /// Out of memory.
    pub(crate) fn choose<T: Tables<S>>(
        &mut self,
        optimal: &OptimalTables<S, T>,
    ) -> Result<bool, AllocError>
        requires { HandlesChains optimal.now (candidates_of S.number self.old) }
        ensures going { OnOk result (HandlesChains optimal.now (candidates_of S.number self.new)) }
        ensures handles { OnOk result ((q : ℕ) → IsHandled optimal.now.tables (candidates_of S.number self.old) q
            → IsHandled optimal.now.tables (candidates_of S.number self.new) q) }
        ensures cost { OnOk result (self.new.cost ≡ self.old.cost) }
        ensures left { IfOk result (λ goes_on. MatchBool goes_on
            (left_to_choose optimal.now (candidates_of S.number self.new)
            < left_to_choose optimal.now (candidates_of S.number self.old))
            (waiting (candidates_of S.number self.new) ≡ 0)) }
    {
        optimal.invariant_holds();
        let Some(p) = self.next() else {
            return Ok(false);
        };
        let rule = optimal.rule_of(p);
        if self.choices[usize::from(rule)].is_some() {
            return Ok(true);
        }
        self.choices[usize::from(rule)] = Some((p, self.number));
        self.number += 1;
        self.nominate_listed(optimal, Listed::Chain(rule))?;
        Ok(true)
    }
}
