//! What a reader finds of a rule, for the builder.

use cfgbase::Span;
use cfgwords::words::{Token, Word};

/// What precedes a rule's colon: its name, and the type that its actions return, if the file gives one.
#[derive(Clone, Copy)]
pub struct RuleHead<'a> {
    pub name: Word<'a>,
    pub action_type: Option<&'a str>,
}

/// A production as it is read.
#[derive(Clone, Copy)]
pub struct Body<'t, 'a> {
    /// The symbols, in order.
    pub symbols: &'t [Token<'a>],
    /// The tokens of its `%prec`s, in order.
    pub precedences: &'t [Token<'a>],
    /// The action's text, and its span.
    pub action: Option<(&'a str, Span)>,
    /// The production's span.
    pub span: Span,
}
