//! What is read of texts.

use cfgrammar::header::{HeaderErrorKind, KindFault, Setting, Value};
use cfgrammar::yacc::ast::{ASTModificationError, ASTWithValidityInfo, KindSource};
use cfgrammar::yacc::{
    AssocKind, Precedence, YaccGrammarError, YaccGrammarErrorKind, YaccGrammarResult,
    YaccGrammarWarning, YaccGrammarWarningKind, YaccKind,
};
use cfgrammar::{
    ColumnUnit, FeedError, Location, NewlineCache, Source, Span, Spanned, SpansKind, render,
};
use std::alloc::{AllocError, Global};

/// Whether a file named its kind.
pub fn is_named(source: KindSource) -> bool {
    match source {
        KindSource::Section => true,
        KindSource::Default => false,
    }
}

/// What a text says as a file of the kind that it names or, if it names none, of the default kind.
pub fn read_or(
    alloc: Global,
    default: YaccKind,
    text: &str,
) -> YaccGrammarResult<(ASTWithValidityInfo, KindSource)> {
    ASTWithValidityInfo::from_str_or(alloc, default, text)
}

/// The level of a precedence whose tokens associate.
pub fn level_of(precedence: Precedence) -> Option<u64> {
    let number: u64 = precedence.level;
    match precedence.kind {
        AssocKind::Left | AssocKind::Right => Some(number),
        AssocKind::Nonassoc => None,
    }
}

/// What spans of a warning mean and whether it is on a rule, and why a tree can't have another start.
pub fn kinds_of<'a>(
    warning: &YaccGrammarWarning,
    error: &'a ASTModificationError,
) -> (SpansKind, bool, &'a YaccGrammarErrorKind) {
    let is_rule = match warning.kind() {
        YaccGrammarWarningKind::UnusedRule => true,
        YaccGrammarWarningKind::UnusedToken => false,
    };
    (warning.spanskind(), is_rule, error.kind())
}

/// What an error's kind holds besides names: a character, or what is wrong with a section.
pub fn held_by(kind: &YaccGrammarErrorKind) -> Option<(char, HeaderErrorKind, SpansKind)> {
    match kind {
        YaccGrammarErrorKind::ExpectedInput(character) => Some((
            *character,
            HeaderErrorKind::IllegalName,
            SpansKind::Error,
        )),
        YaccGrammarErrorKind::Header(kind, spanskind) => Some((' ', *kind, *spanskind)),
        _ => None,
    }
}

/// What the kind of a section's error holds: a character, and what is said of it.
pub fn held_by_section(
    kind: HeaderErrorKind,
) -> (Option<char>, Option<(&'static str, &'static str)>) {
    match kind {
        HeaderErrorKind::MissingGrmtoolsSection
        | HeaderErrorKind::IllegalName
        | HeaderErrorKind::DuplicateEntry => (None, None),
        HeaderErrorKind::ExpectedToken(character) => (Some(character), None),
        HeaderErrorKind::UnexpectedToken(character, hint) => (Some(character), Some((hint, hint))),
        HeaderErrorKind::InvalidEntry(what) => (None, Some((what, what))),
        HeaderErrorKind::ConversionError(what, why) => (None, Some((what, why))),
    }
}

/// A setting with locations in place of spans, the location that represents a value, and the kind that the value names.
pub fn located<'a>(
    alloc: Global,
    setting: &Setting<Span>,
    value: &'a Value<Location>,
) -> (
    Result<Setting<Location>, AllocError>,
    &'a Location,
    Result<YaccKind, KindFault<Location>>,
) {
    (
        setting.to_location(alloc),
        value.primary_location(),
        YaccKind::try_from_value::<Location>(alloc, value),
    )
}

/// An error as people read it.
pub fn rendered(alloc: Global, text: &str, error: &YaccGrammarError) -> Result<String, AllocError> {
    render(alloc, "a.y", text, error)
}

/// The newlines of the lines of a text.
pub fn newlines(alloc: Global, text: &str) -> Result<NewlineCache, FeedError> {
    NewlineCache::from_pieces(alloc, text.split_inclusive('\n'))
}

/// A text whose columns are those of a unit, or count characters.
pub fn source<'a>(
    alloc: Global,
    text: &'a str,
    unit: Option<ColumnUnit>,
) -> Result<Source<'a>, AllocError> {
    match unit {
        Some(unit) => Source::with_columns(alloc, "a.y", text, unit),
        None => Source::new(alloc, "a.y", text),
    }
}
