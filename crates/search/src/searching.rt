//! A search along edges.

ghost use Rattle.std.specs.Prelude.{◌≡◌, ◌↔◌, ℕ, ◌<◌, ◌++◌, ◌∷◌, [], Contains, false, length, slice_index_or};
ghost use Rattle.std.specs.Prelude.{IfOk, IfSome, MatchOption, OnOk, Some, slice_set};
ghost use Rattle.search.specs.Reachable.{IsReachableIn, Reachable, Reaches, unsearched};

use crate::edges::Edges;
use crate::marks::{Bits, Few, Marks};
use std::alloc::{AllocError, Global};
use std::collections::BTreeSet;
use std::marker::Model;

/// A search through the numbers below a bound, its nodes. A node that was reached is queued once, until it is visited.
#[derive(Drop)]
pub struct Search<M: Marks = Bits> {
    reachable: M,
    waiting: Vec<usize>,
}

impl<M: Marks> Model for Search<M> {
    ghost use Rattle.search.specs.Reachable.{SearchState};

    ghost Value = { SearchState };

    ghost view = { λ x. record { reachable = M.bits x.reachable; waiting = x.waiting.items } };
}

impl Search<Bits> {
    /// A search that has reached nothing. It uses a bit for each node.
    ///
    /// # Errors
    ///
    /// `AllocError` if an allocation fails.
    pub fn through(alloc: Global, nodes: usize) -> Result<Self, AllocError>
        ensures { IfOk result (λ x. x ≡ unsearched nodes) }
    {
        Ok(Search {
            reachable: Bits::from_elem(alloc, false, nodes)?,
            waiting: Vec::new(alloc),
        })
    }

    /// A search from a root to its end: what it has reached is the root, if there is one, and whatever that leads to.
    ///
    /// # Errors
    ///
    /// `AllocError` if an allocation fails.
    pub fn from_root<E: Edges<Bits>>(
        alloc: Global,
        edges: &E,
        nodes: usize,
        root: Option<usize>,
    ) -> Result<Self, AllocError>
        requires nodes { nodes ≡ E.nodes edges.now }
        requires root { IfSome root (λ n. n < nodes) }
        ensures nodes { IfOk result (λ x. length x.reachable ≡ nodes) }
        ensures reachable { IfOk result (λ x. (n : ℕ) → IsReachableIn x n
            ↔ Reachable (λ n. root ≡ Some n) (E.leads edges.now) n) }
    {
        let mut search = Search::through(alloc, nodes)?;
        search.reach_found(root)?;
        search.go_on(edges)?;
        Ok(search)
    }

    /// A queued node, which is then neither queued nor reached.
    pub(crate) fn forget(&mut self) -> Option<usize>
        requires { (n : ℕ) → Contains self.old.waiting n → n < length self.old.reachable }
        ensures { MatchOption result ((self.new ≡ self.old) × (self.old.waiting ≡ []))
            (λ node. (self.old.waiting ≡ self.new.waiting ++ node ∷ [])
            × (self.new.reachable ≡ slice_set self.old.reachable node false)) }
    {
        let node = self.waiting.pop()?;
        self.reachable.set(node, false);
        Some(node)
    }
}

impl Search<Few> {
    /// A search that has reached nothing. It uses memory only for the nodes that it reaches, however many there are.
    pub fn through_few(alloc: Global, nodes: usize) -> Self
        ensures { result ≡ unsearched nodes }
    {
        Search {
            reachable: Few {
                bound: nodes,
                numbers: BTreeSet::new(alloc),
            },
            waiting: Vec::new(alloc),
        }
    }
}

impl<M: Marks> Search<M> {
    /// Whether the node was reached.
    pub fn is_reachable(&self, node: usize) -> bool
        ensures { result ≡ slice_index_or self.now.reachable node false }
    {
        self.reachable.is_marked(node)
    }

    /// Reaches a node, which is queued if it was not reached before.
    ///
    /// # Errors
    ///
    /// `AllocError` if an allocation fails.
    pub fn reach(&mut self, node: usize) -> Result<(), AllocError>
        requires { node < length self.old.reachable }
        ensures { OnOk result (Reaches (λ n. n ≡ node) self.old self.new) }
    {
        if self.reachable.mark(node)? {
            self.waiting.push(node)?;
        }
        Ok(())
    }

    /// Reaches the node, if one was found.
    ///
    /// # Errors
    ///
    /// `AllocError` if an allocation fails.
    pub fn reach_found(&mut self, node: Option<usize>) -> Result<(), AllocError>
        requires { IfSome node (λ n. n < length self.old.reachable) }
        ensures { OnOk result (Reaches (λ n. node ≡ Some n) self.old self.new) }
    {
        match node {
            Some(node) => self.reach(node),
            None => Ok(()),
        }
    }

    /// A queued node, which is then no longer queued.
    pub fn next(&mut self) -> Option<usize>
        ensures reachable { self.new.reachable ≡ self.old.reachable }
        ensures waiting { MatchOption result (self.old.waiting ≡ [])
            (λ node. self.old.waiting ≡ self.new.waiting ++ node ∷ []) }
    {
        self.waiting.pop()
    }

    /// Visits each queued node, until none is left.
    ///
    /// # Errors
    ///
    /// `AllocError` if an allocation fails.
    pub fn go_on<E: Edges<M>>(&mut self, edges: &E) -> Result<(), AllocError>
        requires nodes { length self.old.reachable ≡ E.nodes edges.now }
        requires all_wait { (n : ℕ) → IsReachableIn self.old n ↔ Contains self.old.waiting n }
        ensures nodes { OnOk result (length self.new.reachable ≡ length self.old.reachable) }
        ensures reachable { OnOk result ((n : ℕ) → IsReachableIn self.new n
            ↔ Reachable (IsReachableIn self.old) (E.leads edges.now) n) }
    {
        while let Some(node) = self.next() {
            edges.reach_from(node, self)?;
        }
        Ok(())
    }
}
