//! Steps from rule to rule.

use cfgindex::ListTable;

/// A step from a rule to another, by a production of the rule that has the other rule at this index, counted from 0.
#[derive(Clone, Copy)]
pub struct UnitStep {
    /// The number of the rule that the step leads to.
    pub rule: usize,
    /// The number of the production.
    pub production: usize,
    /// The index in the production.
    pub index: usize,
}

/// For each rule its steps.
pub type Steps = ListTable<UnitStep>;
