//! Incomplete sums.

use cfgindex::ListTable;

/// The sum of a production's first symbols, cut down to 65536.
#[derive(Clone, Copy)]
pub struct Partial {
    /// The production's number.
    pub production: u32,
    /// How many symbols were summed.
    pub taken: usize,
    /// What they cost in total.
    pub sum: u32,
}

/// For each rule, the productions that wait for it.
pub type Waitlists = ListTable<Partial>;
