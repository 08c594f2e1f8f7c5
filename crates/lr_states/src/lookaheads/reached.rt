//! Which of the first nodes of a graph each node leads to.

ghost use Rattle.std.specs.Prelude.{◌≡◌, ◌≤◌, ◌<◌, ℕ, [], All, get_or, length, IfOk};
ghost use Rattle.search.specs.Reachable.{FoundBy};
ghost use Rattle.lr_states.specs.Inner.Reached.{AreWithin, HasReached, IsInRow, Shows, TurnsOn};

use cfgindex::{ListTable, Vob};
use search::{Bits, Components, Edges, Search};
use std::alloc::{AllocError, Global};
use std::marker::Model;

/// For each node of a graph which of the first nodes can be reached from it.
#[derive(Drop)]
pub(crate) struct Reached {
    /// For each node the number of its component.
    numbers: Vec<usize>,
    /// For each component a bit for each of the first nodes.
    rows: Vec<Vob>,
}

impl Model for Reached {
    ghost use Rattle.std.specs.Prelude.{◌<◌, Bool, List, [], All, get_or, length, map};

    ghost Value = { List (List Bool) };

    ghost view = { λ x. map (λ number. get_or x.rows.items number []) x.numbers.items };

    ghost invariant = { λ x. All (λ number. number < length x.rows.items) x.numbers.items };
}

impl Reached {
    /// Edges lead from each node to the nodes in its list.
    ///
    /// # Errors
    ///
    /// Out of memory.
    pub(crate) fn of(
        alloc: Global,
        edges: &ListTable<usize>,
        bound: usize,
    ) -> Result<Self, AllocError>
        requires within { AreWithin edges.now }
        requires bound { bound ≤ length edges.now }
        ensures nodes { IfOk result (λ x. length x ≡ length edges.now) }
        ensures rows { IfOk result (λ x. (node : ℕ) → node < length edges.now
            → HasReached edges.now bound node (get_or x node [])) }
    {
        let graph = ListEdges { lists: edges };
        let Components { numbers, members } = Components::of(alloc, &graph, edges.len())?;
        let mut rows = Vec::with_capacity(alloc, members.len())?;
        for component in 0..members.len() {
            let mut row = Vob::from_elem(alloc, false, bound)?;
            add_nodes(&mut row, members.of(component), edges, &numbers, &rows);
            rows.push(row)?;
        }
        Ok(Reached { numbers, rows })
    }

    /// A bit for each of the first nodes, which says whether this node leads to it.
    pub(crate) fn row(&self, node: usize) -> &Vob
        requires { node < length self.now }
        ensures { result.now ≡ get_or self.now node [] }
    {
        &self.rows[self.numbers[node]]
    }
}

/// Nodes, each of which leads to those in its list.
#[derive(Drop)]
struct ListEdges<'a> {
    lists: &'a ListTable<usize>,
}

impl<'a> Model for ListEdges<'a> {
    ghost use Rattle.std.specs.Prelude.{ℕ, List};
    ghost use Rattle.lr_states.specs.Inner.Reached.{AreWithin};

    ghost Value = { List (List ℕ) };

    ghost view = { λ x. x.lists.now };

    ghost invariant = { λ x. AreWithin x.lists.now };
}

impl<'a> Edges<Bits> for ListEdges<'a> {
    ghost use Rattle.std.specs.Prelude.{length};
    ghost use Rattle.lr_states.specs.Inner.Reached.{Leads};

    ghost nodes = { λ lists. length lists };

    ghost leads = { Leads };

    fn reach_from(&self, node: usize, search: &mut Search) -> Result<(), AllocError> {
        for to in self.lists.of(node) {
            search.reach(*to)?;
        }
        Ok(())
    }
}

/// Turns on the bits of the nodes, and what the rows of their edges have.
fn add_nodes(
    row: &mut Vob,
    nodes: &[usize],
    edges: &ListTable<usize>,
    numbers: &[usize],
    rows: &[Vob],
)
    requires nodes { All (λ node. node < length edges.now) nodes.now }
    requires within { AreWithin edges.now }
    requires numbers { length numbers.now ≡ length edges.now }
    requires rows { All (λ other. length other ≡ length row.old) rows.now }
    ensures { TurnsOn (FoundBy (Shows edges.now numbers.now rows.now) nodes.now) row.old row.new }
{
    for node in nodes {
        if *node < row.len() {
            row.set(*node, true);
        }
        add_rows(row, edges.of(*node), numbers, rows);
    }
}

/// Turns on what the rows of these nodes have. Nodes of components without a row are left out.
fn add_rows(row: &mut Vob, nodes: &[usize], numbers: &[usize], rows: &[Vob])
    requires nodes { All (λ node. node < length numbers.now) nodes.now }
    requires rows { All (λ other. length other ≡ length row.old) rows.now }
    ensures { TurnsOn (FoundBy (IsInRow numbers.now rows.now) nodes.now) row.old row.new }
{
    for node in nodes {
        if let Some(other) = rows.get(numbers[*node]) {
            row.or(other);
        }
    }
}
