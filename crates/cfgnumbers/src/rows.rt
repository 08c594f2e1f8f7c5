//! The rows of a grammar's tables.

use cfgbase::Span;
use cfgindex::PIdx;
use cfgitems::Precedence;

/// A rule, stored under its name.
#[derive(Drop)]
pub struct RuleRow<S> {
    pub span: Span,
    pub prods: Vec<PIdx<S>>,
    pub actiont: Option<String>,
}

/// A production, except its rule and its symbols.
#[derive(Drop)]
pub struct ProductionRow {
    pub span: Span,
    pub precedence: Option<Precedence>,
    pub action: Option<String>,
    pub action_span: Option<Span>,
}

/// A token that has a name, stored under that name.
#[derive(Drop)]
pub struct TokenRow {
    pub span: Span,
    pub precedence: Option<Precedence>,
    /// What a `%epp` gives for it. A token without one prints its name.
    pub printed: Option<String>,
    /// Whether it is in an `%avoid_insert` list.
    pub avoid_insert: bool,
}
