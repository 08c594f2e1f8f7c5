use cfgbase::Span;

/// What stops the reading of a grammar file, named like the error that a reader returns for it.
#[derive(Clone, Copy, Debug, PartialEq, Eq)]
pub enum FaultKind {
    IllegalInteger,
    IllegalName,
    IllegalString,
    IncompleteRule,
    IncompleteComment,
    IncompleteAction,
    InvalidString,
    MissingColon,
    MissingRightArrow,
    NonEmptyProduction,
    PrematureEnd,
    ProductionNotTerminated,
    UnknownDeclaration,
    ReachedEOL,
    UnknownSymbol,
}

/// What stopped a reading, and where.
#[derive(Clone, Copy, Debug, PartialEq, Eq)]
pub struct Fault {
    pub kind: FaultKind,
    pub span: Span,
}
