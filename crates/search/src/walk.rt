//! A walk through a graph that finds its components (Gabow, Path-based depth-first search for strong and biconnected
//! components, 2000).

ghost use Rattle.std.specs.Prelude.{◌≡◌, ◌↔◌, ℕ, ◌+◌, ◌<◌, ◌≤◌, ◌++◌, ◌∷◌, List, [], Contains, false, length, map};
ghost use Rattle.std.specs.Prelude.{replicate, slice_index, slice_set, take, true, IfOk, MatchOption, OnOk};
ghost use Rattle.search.specs.Components.{ReachableFrom};
ghost use Rattle.search.specs.Reachable.{unsearched};
ghost use Rattle.search.specs.Inner.Walk.{AddsEdges, AreRising, IsLast, IsPath, IsWalk, NoneNew};
ghost use Rattle.search.specs.Inner.Walk.{is_new, known_of, left_to_walk, number_of, settle};

use crate::edges::Edges;
use crate::marks::Bits;
use crate::searching::Search;
use std::alloc::{AllocError, Global};

/// What is known of a node.
#[derive(Clone, Copy)]
pub(crate) enum Known {
    /// It was not entered.
    New,
    /// It is on the path, at this index.
    Open(usize),
    /// It is in the component with this number.
    Settled(usize),
}

/// Nodes of the path that lead to each other.
#[derive(Clone, Copy)]
pub(crate) struct Group {
    /// The index of the path at which the group begins.
    start: usize,
    /// The index at which its pending edges begin.
    pending: usize,
}

/// An edge that is to be followed.
#[derive(Clone, Copy)]
pub(crate) struct Pending {
    /// The index of the path at which its node is.
    from: usize,
    /// The node that it leads to.
    to: usize,
}

/// The number of the component of a settled node.
fn number_of(known: Known) -> usize
    ensures { result ≡ number_of known }
{
    match known {
        Known::Settled(number) => number,
        _ => 0,
    }
}

/// A walk through nodes.
#[derive(Drop)]
pub(crate) struct Walk {
    /// What is known of each node.
    known: Vec<Known>,
    /// The nodes that were entered and are not settled.
    path: Vec<usize>,
    /// The groups on the path.
    groups: Vec<Group>,
    /// The edges of these nodes that are still to be followed.
    pending: Vec<Pending>,
    /// Has reached nothing, unless edges are being added.
    targets: Search,
    /// The number of components that were finished.
    pub(crate) count: usize,
}

impl Walk {
    /// A walk that has entered none of this many nodes.
    pub(crate) fn new(alloc: Global, nodes: usize) -> Result<Self, AllocError>
        ensures known { IfOk result (λ x. x.known.items ≡ replicate nodes Known.New) }
        ensures path { IfOk result (λ x. x.path.items ≡ []) }
        ensures groups { IfOk result (λ x. x.groups.items ≡ []) }
        ensures pending { IfOk result (λ x. x.pending.items ≡ []) }
        ensures targets { IfOk result (λ x. x.targets ≡ unsearched nodes) }
        ensures count { IfOk result (λ x. x.count ≡ 0) }
    {
        Ok(Walk {
            known: vec![in alloc; Known::New; nodes]?,
            path: Vec::new(alloc),
            groups: Vec::new(alloc),
            pending: Vec::new(alloc),
            targets: Search::through(alloc, nodes)?,
            count: 0,
        })
    }

    /// For each node the number of its component.
    pub(crate) fn numbers(&self, alloc: Global) -> Result<Vec<usize>, AllocError>
        ensures { IfOk result (λ numbers. numbers.items ≡ map number_of self.now.known.items) }
    {
        self.known
            .iter()
            .map(|known| number_of(*known))
            .collect(alloc)
    }

    /// Settles the node, and all that it leads to.
    pub(crate) fn walk_from<E: Edges<Bits>>(
        &mut self,
        edges: &E,
        node: usize,
    ) -> Result<(), AllocError>
        requires node { node < E.nodes edges.now }
        requires walk { IsWalk (E.leads edges.now) (E.nodes edges.now) self.old [] }
        requires groups { self.old.groups.items ≡ [] }
        ensures walk { OnOk result (IsWalk (E.leads edges.now) (E.nodes edges.now) self.new []) }
        ensures groups { OnOk result (self.new.groups.items ≡ []) }
        ensures known { OnOk result (NoneNew self.old.known.items self.new.known.items) }
        ensures node { OnOk result (is_new (known_of self.new.known.items node) ≡ false) }
    {
        self.follow(edges, Pending { from: 0, to: node })?;
        while let Some(group) = self.last_group() {
            self.go_on(edges, group)?;
        }
        Ok(())
    }

    /// The last group.
    fn last_group(&self) -> Option<Group>
        ensures { MatchOption result (self.now.groups.items ≡ []) (IsLast self.now.groups.items) }
    {
        self.groups.last().copied()
    }

    /// Follows a pending edge of the last group. If it has none, it is a component, which is finished.
    fn go_on<E: Edges<Bits>>(&mut self, edges: &E, group: Group) -> Result<(), AllocError>
        requires walk { IsWalk (E.leads edges.now) (E.nodes edges.now) self.old [] }
        requires group { IsLast self.old.groups.items group }
        ensures walk { OnOk result (IsWalk (E.leads edges.now) (E.nodes edges.now) self.new []) }
        ensures known { OnOk result (NoneNew self.old.known.items self.new.known.items) }
        ensures less { OnOk result (left_to_walk (E.nodes edges.now) self.new
            < left_to_walk (E.nodes edges.now) self.old) }
    {
        if self.pending.len() <= group.pending {
            self.settle(group.start);
            return Ok(());
        }
        match self.pending.pop() {
            Some(edge) => self.follow(edges, edge),
            None => Ok(()),
        }
    }

    /// Follows an edge of the last group, or to any node if there is no group.
    fn follow<E: Edges<Bits>>(&mut self, edges: &E, edge: Pending) -> Result<(), AllocError>
        requires to { edge.to < E.nodes edges.now }
        requires walk { IsWalk (E.leads edges.now) (E.nodes edges.now) self.old (edge ∷ []) }
        requires leads { (index : ℕ) → index < length self.old.path.items
            → ReachableFrom (E.leads edges.now) (slice_index self.old.path.items index) edge.to }
        ensures walk { OnOk result (IsWalk (E.leads edges.now) (E.nodes edges.now) self.new []) }
        ensures known { OnOk result (NoneNew self.old.known.items self.new.known.items) }
        ensures to { OnOk result (is_new (known_of self.new.known.items edge.to) ≡ false) }
        ensures less { OnOk result (left_to_walk (E.nodes edges.now) self.new
            ≤ left_to_walk (E.nodes edges.now) self.old) }
    {
        match self.known[edge.to] {
            Known::New => self.enter(edges, edge.to),
            Known::Open(index) => {
                self.join(index);
                Ok(())
            }
            Known::Settled(_) => Ok(()),
        }
    }

    /// Adds the node to the path, as a new group, and its edges to the pending ones.
    fn enter<E: Edges<Bits>>(&mut self, edges: &E, node: usize) -> Result<(), AllocError>
        requires node { node < E.nodes edges.now }
        requires known { node < length self.old.known.items }
        requires targets { self.old.targets ≡ unsearched (E.nodes edges.now) }
        ensures known { OnOk result (self.new.known.items
            ≡ slice_set self.old.known.items node (Known.Open (length self.old.path.items))) }
        ensures path { OnOk result (self.new.path.items ≡ self.old.path.items ++ node ∷ []) }
        ensures groups { OnOk result (self.new.groups.items ≡ self.old.groups.items
            ++ record { start = length self.old.path.items; pending = length self.old.pending.items } ∷ []) }
        ensures pending { OnOk result (AddsEdges (E.leads edges.now node) (E.nodes edges.now)
            (length self.old.path.items) self.old.pending.items self.new.pending.items) }
        ensures targets { OnOk result (self.new.targets ≡ unsearched (E.nodes edges.now)) }
        ensures count { self.new.count ≡ self.old.count }
    {
        let from = self.path.len();
        self.groups.push(Group {
            start: from,
            pending: self.pending.len(),
        })?;
        self.known[node] = Known::Open(from);
        self.path.push(node)?;
        push_edges(edges, node, from, &mut self.targets, &mut self.pending)
    }

    /// Joins the groups after this index to the one that contains it.
    fn join(&mut self, index: usize)
        requires { AreRising self.old.groups.items }
        ensures rest { self.new ≡ record self.old { groups = self.new.groups } }
        ensures rising { AreRising self.new.groups.items }
        ensures groups { (g : Group) → Contains self.new.groups.items g
            ↔ (Contains self.old.groups.items g × (g.start ≤ index)) }
        ensures fewer { length self.new.groups.items ≤ length self.old.groups.items }
    {
        while self.begins_after(index) {
            self.groups.pop();
        }
    }

    /// Whether the last group begins after this index.
    fn begins_after(&self, index: usize) -> bool
        ensures after { result ≡ true → (g : Group) × IsLast self.now.groups.items g × (index < g.start) }
        ensures no_more { result ≡ false → (g : Group) → IsLast self.now.groups.items g → g.start ≤ index }
    {
        match self.last_group() {
            Some(group) => index < group.start,
            None => false,
        }
    }

    /// Settles the nodes of the path from this index on, as the next component, and drops the last group.
    fn settle(&mut self, start: usize)
        requires path { IsPath self.old.known.items self.old.path.items }
        requires start { start < length self.old.path.items }
        requires within { (index : ℕ) → index < length self.old.path.items
            → slice_index self.old.path.items index < length self.old.known.items }
        requires count { self.old.count < length self.old.known.items }
        ensures known { (node : ℕ) → known_of self.new.known.items node
            ≡ settle start self.old.count (known_of self.old.known.items node) }
        ensures entries { length self.new.known.items ≡ length self.old.known.items }
        ensures path { self.new.path.items ≡ take start self.old.path.items }
        ensures groups { (rest : List Group) (g : Group) → self.old.groups.items ≡ rest ++ g ∷ []
            → self.new.groups.items ≡ rest }
        ensures pending { self.new.pending.items ≡ self.old.pending.items }
        ensures targets { self.new.targets ≡ self.old.targets }
        ensures count { self.new.count ≡ self.old.count + 1 }
    {
        let number = self.count;
        for index in start..self.path.len() {
            let node = self.path[index];
            self.known[node] = Known::Settled(number);
        }
        self.path.truncate(start);
        self.groups.pop();
        self.count = number + 1;
    }
}

/// Adds the edges of the node at this index of the path, each once. `targets` has reached nothing, before and after.
fn push_edges<E: Edges<Bits>>(
    edges: &E,
    node: usize,
    from: usize,
    targets: &mut Search,
    pending: &mut Vec<Pending>,
) -> Result<(), AllocError>
    requires node { node < E.nodes edges.now }
    requires targets { targets.old ≡ unsearched (E.nodes edges.now) }
    ensures pending { OnOk result (AddsEdges (E.leads edges.now node) (E.nodes edges.now) from
        pending.old.items pending.new.items) }
    ensures targets { OnOk result (targets.new ≡ unsearched (E.nodes edges.now)) }
{
    edges.reach_from(node, targets)?;
    while let Some(to) = targets.forget() {
        pending.push(Pending { from, to })?;
    }
    Ok(())
}
