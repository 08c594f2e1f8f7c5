//! The traits that types have.

use cfgrammar::header::{
    HeaderError, HeaderErrorKind, HeaderFault, HeaderValue, KindFault, Namespaced, Setting, Value,
};
use cfgrammar::markmap::{MarkMap, MergeBehavior, MergeError, MergeFault};
use cfgrammar::yacc::ast::{
    self, ASTModificationError, ASTWithValidityInfo, GrammarAST, Production, Rule, StartFault,
};
use cfgrammar::yacc::firsts::YaccFirsts;
use cfgrammar::yacc::follows::YaccFollows;
use cfgrammar::yacc::sentences::{CostError, SentenceError};
use cfgrammar::yacc::{
    AssocKind, Precedence, YaccFault, YaccGrammarError, YaccGrammarErrorKind, YaccGrammarWarning,
    YaccGrammarWarningKind, YaccKind, YaccOriginalActionKind,
};
use cfgrammar::{
    FeedError, Location, PIdx, RIdx, SIdx, Span, SpansKind, Symbol, TIdx, Visible, Vob, span,
};
use cfgtool::{ReportFault, SinkFault};
use std::error::Error;
use std::fmt::{Debug, Display};
use std::hash::Hash;

fn have<
    A: Copy + Debug + Hash + Ord,
    B: Copy + Debug + Eq + Hash,
    C: Copy + Debug + Eq,
    D: Clone + Debug + Eq,
    E: Clone + Debug,
    F: Debug + Eq,
    G: Debug + PartialEq,
    H: Debug,
    I: Debug,
>() {}

fn are_printed<A: Error, B: span::Spanned, C: Display, D: Display>() {}

/// Each type with the traits of its column.
pub fn traits() {
    have::<
        RIdx<u32>,
        Span,
        YaccKind,
        Location,
        HeaderError<Span>,
        Vob,
        HeaderValue<Span>,
        FeedError,
        YaccFault,
    >();
    have::<
        PIdx<u32>,
        Symbol<u32>,
        YaccOriginalActionKind,
        Rule,
        GrammarAST,
        Value<Span>,
        HeaderValue<Span>,
        HeaderFault,
        KindFault<Span>,
    >();
    have::<
        SIdx<u32>,
        Span,
        SpansKind,
        Production,
        ASTWithValidityInfo,
        Setting<Span>,
        HeaderValue<Span>,
        StartFault,
        CostError,
    >();
    have::<
        TIdx<u32>,
        Span,
        HeaderErrorKind,
        ast::Symbol,
        Location,
        Namespaced<Span>,
        HeaderValue<Span>,
        SentenceError,
        ReportFault,
    >();
    have::<
        RIdx<u32>,
        Span,
        MergeBehavior,
        YaccGrammarError,
        Location,
        MarkMap<u32, String>,
        HeaderValue<Span>,
        SinkFault,
        YaccFirsts<u32>,
    >();
    have::<
        RIdx<u32>,
        Span,
        AssocKind,
        YaccGrammarErrorKind,
        Location,
        Vob,
        HeaderValue<Span>,
        YaccFollows<u32>,
        MergeError<u32, String>,
    >();
    have::<
        RIdx<u32>,
        Span,
        Precedence,
        YaccGrammarWarning,
        Location,
        Vob,
        HeaderValue<Span>,
        MergeFault<u32, String, ()>,
        Vob,
    >();
    have::<
        RIdx<u32>,
        Span,
        Span,
        YaccGrammarWarningKind,
        Location,
        Vob,
        HeaderValue<Span>,
        Vob,
        Vob,
    >();
    have::<
        RIdx<u32>,
        Span,
        Span,
        ASTModificationError,
        Location,
        Vob,
        HeaderValue<Span>,
        Vob,
        Vob,
    >();
    are_printed::<YaccGrammarError, YaccGrammarError, YaccGrammarErrorKind, YaccGrammarError>();
    are_printed::<
        ASTModificationError,
        YaccGrammarWarning,
        YaccGrammarWarningKind,
        YaccGrammarWarning,
    >();
    are_printed::<HeaderError<Span>, HeaderError<Span>, HeaderErrorKind, HeaderError<Span>>();
    are_printed::<MergeError<u32, String>, HeaderError<Span>, ast::Symbol, ASTModificationError>();
    are_printed::<
        MergeError<u32, String>,
        HeaderError<Span>,
        Visible<'static>,
        MergeError<u32, String>,
    >();
}
