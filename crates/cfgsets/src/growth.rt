//! Sets that grow by what productions give.

ghost use Rattle.std.specs.Prelude.{◌≡◌, ℕ, ◌+◌, ◌*◌, ◌<◌, ◌≤◌, length, Contains, IfOk};
ghost use Rattle.derivation.specs.Grammar.{Grammar, Production, IsGrammar};
ghost use Rattle.cfgsets.specs.Growth.{CanNote, CanAddProduction, AddsProduction, AddsInto, shown};
ghost use Rattle.cfgsets.specs.Waiting.{NoneWaits, Waits};
ghost use Rattle.cfgsets.specs.Work.{Notes, dependents_of};

use crate::dependents::Dependents;
use crate::waiting::Waiting;
use crate::work::Work;
use cfgindex::{RIdx, Storage, Symbol};
use std::alloc::AllocError;

/// Sets of tokens, one for each rule, that grow by what productions give.
pub trait Analysis<S: Storage> {
    // These are sets of the grammar, and what they say is true.
    ghost holds: { Grammar → Self → Type 0 };

    // The sets contain all that the production gives.
    ghost covers: { Self → Production → Type 0 };

    // How many bits are on.
    ghost bits: { Self → ℕ };

    // What the production gives depends on the rule's set.
    ghost depends_on: { Production → ℕ → Type 0 };

    // The rule's set has no more in the second sets than in the first.
    ghost no_more: { ℕ → Self → Self → Type 0 };

    /// Notes that the production with this number depends on the sets of some rules.
    ///
    /// # Errors
    ///
    /// Out of memory.
    fn note(
        &self,
        production: usize,
        rule: RIdx<S>,
        symbols: &[Symbol<S>],
        dependents: &mut Dependents,
    ) -> Result<(), AllocError>
        requires { CanNote dependents.old (shown S.number rule symbols.now) }
        ensures { IfOk result (λ _. Notes production (depends_on (shown S.number rule symbols.now))
            dependents.old dependents.new) };

    /// Adds what a production gives, and queues the rules whose sets grew.
    fn visit(&mut self, rule: RIdx<S>, symbols: &[Symbol<S>], grown: &mut Waiting)
        requires { CanAddProduction holds self.old grown.old (shown S.number rule symbols.now) }
        ensures takes { AddsProduction holds covers bits depends_on no_more
            (shown S.number rule symbols.now) self.old self.new (Waits grown.new) }
        ensures rules { length grown.new ≡ length grown.old };

    // The number of bits that are on is at most the number of bits.
    ghost bounded: { (g : Grammar) (x : Self) → holds g x → bits x ≤ g.rules * (g.tokens + 1) };
}

/// Adds what a production gives, and queues the productions that depend on a rule whose set grew.
pub fn add_production<S: Storage, A: Analysis<S>>(
    analysis: &mut A,
    work: &mut Work,
    rule: RIdx<S>,
    symbols: &[Symbol<S>],
)
    requires grammar { (g : Grammar) × IsGrammar g × A.holds g analysis.old
        × NoneWaits work.old.grown × (length work.old.grown ≡ g.rules) × (length work.old.dependents ≡ g.rules)
        × Contains g.productions (shown S.number rule symbols.now) }
    requires within { (r p : ℕ) → Contains (dependents_of work.old.dependents r) p → p < length work.old.waiting }
    ensures takes { AddsInto A.holds A.covers A.bits A.depends_on A.no_more
        (shown S.number rule symbols.now)
        work.old.dependents analysis.old analysis.new work.old.waiting work.new.waiting }
    ensures dependents { work.new.dependents ≡ work.old.dependents }
    ensures grown { NoneWaits work.new.grown }
    ensures rules { length work.new.grown ≡ length work.old.grown }
{
    analysis.visit(rule, symbols, &mut work.grown);
    work.let_dependents_wait();
}
