//! The edges that a search follows.

ghost use Rattle.std.specs.Prelude.{◌≡◌, ℕ, ◌<◌, length, OnOk};
ghost use Rattle.search.specs.Reachable.{Reaches};

use crate::marks::Marks;
use crate::searching::Search;
use std::alloc::AllocError;

/// Nodes, each of which leads to some others, for searches with such marks.
pub trait Edges<M: Marks> {
    // How many nodes there are.
    ghost nodes: { Self → ℕ };

    // Which nodes a node leads to.
    ghost leads: { Self → ℕ → ℕ → Type 0 };

    /// Reaches every node that the node leads to.
    ///
    /// # Errors
    ///
    /// `AllocError` if an allocation fails.
    fn reach_from(&self, node: usize, search: &mut Search<M>) -> Result<(), AllocError>
        requires node { node < nodes self.now }
        requires nodes { length search.old.reachable ≡ nodes self.now }
        ensures { OnOk result (Reaches (leads self.now node) search.old search.new) };
}
