//! For each rule, the productions that depend on it.

ghost use Rattle.std.specs.Prelude.{◌≡◌, ◌<◌, ℕ, [], length, replicate, Contains, IfOk};
ghost use Rattle.cfgsets.specs.Work.{Notes, Queues, dependents_of};

use crate::waiting::Waiting;
use std::alloc::{AllocError, Global};
use std::marker::Model;

/// A production that depends on a rule.
#[derive(Clone, Copy, Drop)]
struct Link {
    production: usize,

    /// The number of the link that was made for the rule before; 0 if this is its first one.
    next: usize,
}

/// For each rule, the numbers of the productions that depend on it: what they give depends on the rule's set. The links
/// of all rules are in one list, since a list for each rule would be an allocation for each. They are numbered from 1.
#[derive(Drop)]
pub struct Dependents {
    /// For each rule, the number of its last link; 0 if it has none.
    heads: Vec<usize>,
    links: Vec<Link>,
}

impl Model for Dependents {
    ghost use Rattle.std.specs.Prelude.{ℕ, List};
    ghost use Rattle.cfgsets.specs.Inner.Links.{AreLinked, lists_of};

    ghost Value = { List (List ℕ) };

    ghost view = { λ x. lists_of x.heads.items x.links.items };

    ghost invariant = { λ x. AreLinked x.heads.items x.links.items };
}

impl Dependents {
    /// Nothing noted yet, for this many rules.
    ///
    /// # Errors
    ///
    /// Out of memory.
    pub fn new(alloc: Global, rules: usize) -> Result<Self, AllocError>
        ensures { IfOk result (λ x. x ≡ replicate rules []) }
    {
        Ok(Dependents {
            heads: vec![in alloc; 0; rules]?,
            links: Vec::new(alloc),
        })
    }

    /// Notes that a production depends on the rule.
    ///
    /// # Errors
    ///
    /// Out of memory.
    pub fn note(&mut self, rule: usize, production: usize) -> Result<(), AllocError>
        requires { rule < length self.old }
        ensures { IfOk result (λ _. Notes production (λ r. r ≡ rule) self.old self.new) }
    {
        self.links.push(Link {
            production,
            next: self.heads[rule],
        })?;
        self.heads[rule] = self.links.len();
        Ok(())
    }

    /// Queues the productions that depend on the rule, those that were noted first before others.
    pub fn queue(&self, rule: usize, waiting: &mut Waiting)
        requires rule { rule < length self.now }
        requires within { (p : ℕ) → Contains (dependents_of self.now rule) p → p < length waiting.old }
        ensures { Queues self.now (λ r. r ≡ rule) waiting.old waiting.new }
    {
        let before = waiting.len();
        let mut number = self.heads[rule];
        while number > 0 {
            let link = self.links[number - 1];
            waiting.put(link.production);
            number = link.next;
        }
        waiting.reverse_from(before);
    }
}
