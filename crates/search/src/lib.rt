//! Graphs: nodes are numbers, and lead to others. Which nodes are reachable from some of them; components.
#![tactic(auto)]

mod components;
mod edges;
mod marks;
mod searching;
mod walk;

pub use components::Components;
pub use edges::Edges;
pub use marks::{Bits, Few, Marks};
pub use searching::Search;
