//! The reader of Yacc and Bison files: what their words, one after another, say of the grammar.
#![tactic(auto)]

mod declarations;
mod group;
mod item;
mod laws;
mod lists;
mod read;
mod reader;
mod rules;
mod sort;
mod sorts;
mod turns;

pub use group::Group;
pub use item::{Associativity, Expected, Item, Part, PartKind, Production};
pub use laws::{file_is_graph, identifiers_are_names, items_are_well_sorted};
pub use read::{FileText, read_items, read_text};
pub use sort::{Declaration, Modifier, Sort};
pub use sorts::{sort_of, sorts_of};
