//! Sections and their values.

use cfgrammar::header::{
    GrmtoolsSectionParser, HeaderError, HeaderErrorKind, HeaderFault, HeaderValue, KindFault,
    Namespaced, Setting, Value,
};
use cfgrammar::yacc::{YaccGrammarError, YaccKind};
use cfgrammar::{Location, Span, Spanned, SpansKind};
use std::alloc::{AllocError, Global};

/// The entry at an offset of a text, if a character begins there, or the text ends.
pub fn entry_at(
    alloc: Global,
    text: &str,
    offset: usize,
) -> Option<Result<(String, Span, Value<Span>, usize), HeaderFault>> {
    if !text.is_char_boundary(offset) {
        return None;
    }
    Some(GrmtoolsSectionParser::new(text, true).parse_key_value(alloc, offset))
}

/// Values with locations in place of spans, and the value that names a kind.
pub fn values(
    alloc: Global,
    held: &HeaderValue<Span>,
    value: &Value<Span>,
    kind: YaccKind,
) -> (
    Result<HeaderValue<Location>, AllocError>,
    Result<Value<Location>, AllocError>,
    Result<Value<Location>, AllocError>,
) {
    (
        held.to_location(alloc),
        value.to_location(alloc),
        Value::try_from_kind(alloc, kind),
    )
}

/// The names of a setting that has some, and the two parts of what is held.
pub fn names_of<'a>(
    held: &'a HeaderValue<Span>,
    setting: &'a Setting<Span>,
) -> (
    &'a Span,
    Option<(&'a Namespaced<Span>, &'a Namespaced<Span>)>,
) {
    match setting {
        Setting::Unitary(name) => (&held.0, Some((name, name))),
        Setting::Constructor { ctor, arg } => (&held.0, Some((ctor, arg))),
        Setting::Num(..) | Setting::String(..) | Setting::Array(..) => (&held.0, None),
    }
}

/// The parts of a name.
pub fn parts_of<T>(name: &Namespaced<T>) -> (&Option<(String, T)>, &(String, T)) {
    (&name.namespace, &name.member)
}

/// Whether what is held is a flag.
pub fn is_flag(held: &HeaderValue<Span>) -> bool {
    match held.1 {
        Value::Flag(..) => true,
        Value::Setting(_) => false,
    }
}

/// What an error of a section is, and where.
pub fn error_parts(error: &HeaderError<Span>) -> (HeaderErrorKind, &Vec<Span>, &[Span], SpansKind) {
    (
        error.kind,
        &error.locations,
        error.spans(),
        error.spanskind(),
    )
}

/// An error of a section, and a copy of it, as errors of the text.
pub fn as_errors(
    error: HeaderError<Span>,
) -> (Result<HeaderError<Span>, AllocError>, YaccGrammarError) {
    (error.clone(), YaccGrammarError::from(error))
}

/// Why a value names no kind.
pub fn why_no_kind(fault: &KindFault<Location>) -> Option<HeaderErrorKind> {
    match fault {
        KindFault::Error(error) => Some(error.kind),
        KindFault::OutOfMemory => None,
    }
}
