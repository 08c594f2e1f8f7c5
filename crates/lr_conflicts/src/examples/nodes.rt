//! Nodes that ways lead to, and those that were found.

use cfgrammar::Symbol;
use indexmap::IndexMap;
use lr_states::Item;

/// An item at a place, and whether the token comes after its production.
#[derive(Clone, Copy, PartialEq, Eq, Hash)]
pub(crate) struct ItemAt {
    pub(crate) place: usize,
    pub(crate) item: Item,
    pub(crate) followed: bool,
}

/// A rule that is next at a place, and the rule that comes first after it.
#[derive(Clone, Copy, PartialEq, Eq, Hash)]
pub(crate) struct OpenedAt {
    pub(crate) place: usize,
    pub(crate) rule: usize,
    pub(crate) first: usize,
}

/// What ways lead to.
#[derive(Clone, Copy, PartialEq, Eq, Hash)]
pub(crate) enum Node {
    /// An item.
    Item(ItemAt),
    /// A rule, after which it is still to be seen whether the token comes.
    Opened(OpenedAt),
}

/// What leads to a node that was found, and what it adds to a side that shows the node it is from.
#[derive(Clone, Copy)]
pub(crate) enum Step<'a> {
    /// A way begins there, with an empty side.
    First,
    /// From this node, by reading a symbol, which ends the prefix.
    Read(Node, Symbol<u32>),
    /// From this node, by opening a rule after which these symbols come. They begin the rest.
    Open(Node, &'a [Symbol<u32>]),
}

/// Nodes in the order in which they were found, each with the last step of a way that leads to it.
pub(crate) type Found<'a> = IndexMap<Node, Step<'a>>;
