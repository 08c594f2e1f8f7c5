//! A work list: the productions that an analysis has to visit again.

ghost use Rattle.std.specs.Prelude.{◌≡◌, ◌<◌, ℕ, [], false, length, replicate, Contains, IfOk};
ghost use Rattle.cfgsets.specs.Waiting.{NoneWaits, Waits};
ghost use Rattle.cfgsets.specs.Work.{Queues, dependents_of};

use crate::dependents::Dependents;
use crate::waiting::Waiting;
use std::alloc::{AllocError, Global};

/// The work that an analysis has left.
#[derive(Drop)]
pub struct Work {
    /// The productions that depend on each rule.
    pub dependents: Dependents,

    /// The productions that wait.
    pub waiting: Waiting,

    /// The rules whose sets grew in the last visit.
    pub grown: Waiting,
}

impl Work {
    /// Work for this many rules and productions, with nothing noted or waiting yet.
    ///
    /// # Errors
    ///
    /// Out of memory.
    pub fn new(alloc: Global, rules: usize, productions: usize) -> Result<Self, AllocError>
        ensures dependents { IfOk result (λ x. x.dependents ≡ replicate rules []) }
        ensures waiting { IfOk result (λ x. x.waiting ≡ replicate productions false) }
        ensures grown { IfOk result (λ x. x.grown ≡ replicate rules false) }
    {
        Ok(Work {
            dependents: Dependents::new(alloc, rules)?,
            waiting: Waiting::new(alloc, productions)?,
            grown: Waiting::new(alloc, rules)?,
        })
    }

    /// Queues the productions that depend on rules whose sets grew, and empties the list of these rules.
    pub fn let_dependents_wait(&mut self)
        requires grown { length self.old.grown ≡ length self.old.dependents }
        requires within { (r p : ℕ) → Contains (dependents_of self.old.dependents r) p → p < length self.old.waiting }
        ensures dependents { self.new.dependents ≡ self.old.dependents }
        ensures waiting { Queues self.old.dependents (Waits self.old.grown) self.old.waiting self.new.waiting }
        ensures grown { NoneWaits self.new.grown }
        ensures rules { length self.new.grown ≡ length self.old.grown }
    {
        while let Some(rule) = self.grown.next() {
            self.dependents.queue(rule, &mut self.waiting);
        }
    }
}
