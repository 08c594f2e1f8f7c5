//! Types by their other paths, and those that no signature of rows names.

use cfgrammar::yacc::grammar::{self, CountedTables, PIdxIter, RIdxIter, TIdxIter};
use cfgrammar::yacc::{PrecedenceLevel, parser, sentences};
use cfgrammar::{Spanned, newlinecache, span};

/// Spans, lines and errors.
pub type OfTexts = (
    newlinecache::NewlineCache,
    span::Location,
    span::Span,
    parser::SpansKind,
    parser::YaccGrammarErrorKind,
    parser::YaccGrammarWarning,
    parser::YaccGrammarWarningKind,
);

/// Grammars.
pub type OfGrammars<'a, S> = (
    CountedTables<'a, S, grammar::YaccGrammar<S>>,
    grammar::SentenceGenerator<'a, S>,
    sentences::SentenceGenerator<'a, S>,
    grammar::AssocKind,
    grammar::Precedence,
    grammar::PrecedenceLevel,
    PrecedenceLevel,
    PIdxIter<S>,
    RIdxIter<S>,
    TIdxIter<S>,
);

/// What has spans.
pub fn spans_of<E: Spanned>(error: &E) -> (&[span::Span], parser::SpansKind) {
    (error.spans(), error.spanskind())
}
