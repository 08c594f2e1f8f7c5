//! Components: sets of nodes each of which leads to each other one.

ghost use Rattle.std.specs.Prelude.{◌≡◌, ℕ, ◌<◌, [], get_or, length, slice_index, IfOk};
ghost use Rattle.search.specs.Components.{AreComponents, AreMembers};

use crate::edges::Edges;
use crate::marks::Bits;
use crate::walk::Walk;
use cfgindex::ListTable;
use std::alloc::{AllocError, Global};

/// The components of a graph, in an order such that each edge leads to the same component or to an earlier one.
#[derive(Drop)]
pub struct Components {
    /// For each node the number of its component.
    pub numbers: Vec<usize>,
    /// For each component its nodes, in ascending order.
    pub members: ListTable<usize>,
}

impl Components {
    /// The components of a graph with this many nodes. Takes the edges of each node once.
    ///
    /// # Errors
    ///
    /// `AllocError` if an allocation fails.
    pub fn of<E: Edges<Bits>>(alloc: Global, edges: &E, nodes: usize) -> Result<Self, AllocError>
        requires { nodes ≡ E.nodes edges.now }
        ensures { IfOk result (λ x. AreComponents (E.leads edges.now) nodes x.numbers.items x.members) }
    {
        let mut walk = Walk::new(alloc, nodes)?;
        for node in 0..nodes {
            walk.walk_from(edges, node)?;
        }
        let numbers = walk.numbers(alloc)?;
        let members = members_of(alloc, &numbers, walk.count)?;
        Ok(Components { numbers, members })
    }
}

/// The nodes of this many components, each in ascending order, where each node has the number of its component.
fn members_of(
    alloc: Global,
    numbers: &[usize],
    components: usize,
) -> Result<ListTable<usize>, AllocError>
    requires { (node : ℕ) → node < length numbers.now → slice_index numbers.now node < components }
    ensures lists { IfOk result (λ members. length members ≡ components) }
    ensures members { IfOk result (λ members. (number : ℕ)
        → AreMembers numbers.now (length numbers.now) number (get_or members number [])) }
{
    let mut members = ListTable::new(alloc, components)?;
    for node in 0..numbers.len() {
        members.push(numbers[node], node)?;
    }
    Ok(members)
}
