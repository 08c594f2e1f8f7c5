//! Indices, numbers that store them, lines, and the marked map.

use cfgrammar::header::{Header, HeaderValue};
use cfgrammar::markmap::{Keys, MarkMap, MarkMapIterRef, MergeBehavior, MergeFault};
use cfgrammar::yacc::YaccGrammarError;
use cfgrammar::{
    FeedError, Hint, Location, PIdx, Positions, RIdx, SIdx, Span, Storage, TIdx, hint_for,
};
use std::alloc::AllocError;
use std::hash::{Hash, Hasher};

/// Indices as they are stored, twice each.
pub fn stored<S: Storage, H: Hasher>(
    rule: RIdx<S>,
    production: PIdx<S>,
    symbol: SIdx<S>,
    token: TIdx<S>,
    hasher: &mut H,
) -> ([S; 4], [S; 4]) {
    rule.hash(hasher);
    (
        [
            rule.as_storaget(),
            production.as_storaget(),
            symbol.as_storaget(),
            token.as_storaget(),
        ],
        [rule.0, production.0, symbol.0, token.0],
    )
}

/// The numbers of indices.
pub fn widened<S: Storage>(
    rule: RIdx<S>,
    production: PIdx<S>,
    symbol: SIdx<S>,
    token: TIdx<S>,
) -> ([usize; 4], [u32; 4]) {
    (
        [
            usize::from(rule),
            usize::from(production),
            usize::from(symbol),
            usize::from(token),
        ],
        [
            u32::from(rule),
            u32::from(production),
            u32::from(symbol),
            u32::from(token),
        ],
    )
}

/// A stored number and the greatest one, and a number as a type stores it, and as each of three does.
pub fn numbers<S: Storage>(
    stored: S,
    number: usize,
) -> (
    usize,
    usize,
    Option<S>,
    Option<u8>,
    Option<u16>,
    Option<u32>,
) {
    (
        stored.to_usize(),
        S::MAX,
        S::from_usize(number),
        <u8 as Storage>::from_usize(number),
        <u16 as Storage>::from_usize(number),
        <u32 as Storage>::from_usize(number),
    )
}

/// The bytes of a span, whether it is empty, and its location.
pub fn parts_of(span: Span) -> (usize, bool, Location) {
    (span.len(), span.is_empty(), Location::from(span))
}

/// The span of a location, if it is one, and a copy of the location.
pub fn span_of(location: &Location) -> (Option<Span>, Result<Location, AllocError>) {
    let span = match location {
        Location::Span(span) => Some(*span),
        Location::CommandLine | Location::Other(_) => None,
    };
    (span, location.clone())
}

/// Whether a text is too long.
pub fn is_too_long(fault: FeedError) -> bool {
    match fault {
        FeedError::TooLong => true,
        FeedError::OutOfMemory => false,
    }
}

/// The text of a file, where a span of it is, and the note on an error.
pub fn position_of<'a>(
    positions: &Positions<'a>,
    span: Span,
    error: &YaccGrammarError,
) -> (&'a str, (usize, usize), Option<Hint<'a>>) {
    let text: &'a str = positions.text();
    (text, positions.span_line_bytes(span), hint_for(text, error))
}

/// The keys of a map, and its entries.
pub fn walks(
    map: &MarkMap<u32, String>,
) -> (Keys<'_, u32, String>, MarkMapIterRef<'_, u32, String>) {
    (map.keys(), map.into_iter())
}

/// How many entries a map has.
pub fn count(map: &MarkMap<TIdx<u32>, Location>) -> usize {
    let mut count = 0usize;
    for (_token, _location) in map {
        count = count.saturating_add(1);
    }
    count
}

/// Two maps merged, of which the values of one are converted.
pub fn merged(
    wide: &mut MarkMap<String, u64>,
    narrow: MarkMap<String, u32>,
) -> Result<(), MergeFault<String, u64, ()>> {
    wide.merge_from(narrow, |value: u32| Ok(u64::from(value)))
}

/// Behaviors as numbers.
pub fn bits() -> [u8; 3] {
    [
        MergeBehavior::Theirs as u8,
        MergeBehavior::Ours as u8,
        MergeBehavior::MutuallyExclusive as u8,
    ]
}

/// What a header is.
pub fn map_of(header: &Header<Span>) -> &MarkMap<String, HeaderValue<Span>> {
    header
}
