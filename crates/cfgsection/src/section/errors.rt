//! The errors of a section, in order.

ghost use Rattle.std.specs.Prelude.{◌≡◌, ◌++◌, ◌∷◌, [], ℕ, List, length, map, IfOk, OnOk, ◌==◌};
ghost use Rattle.std.specs.Prelude.{if◌then◌else◌};
ghost use Rattle.std.specs.Str.{bytes_eq};
ghost use Rattle.lemmas.specs.Lists.{repeated};
ghost use Rattle.cfgsection.specs.SectionErrors.{duplicate_errors, keys_of, section_errors, spans_of};
ghost use Rattle.cfgsection.specs.SectionReads.{entry_view, errors_view};
ghost use Rattle.cfgsection.specs.Inner.Steps.{end_view, fault_view, spans_at, duplicate_at};

use crate::section::entry::Entry;
use crate::section::fault::Fault;
use cfgbase::Span;
use cfgerrors::{HeaderError, HeaderErrorKind};
use std::alloc::{AllocError, Global};
use std::collections::BTreeMap;

/// Notes one more span of a key, and returns whether it is the second.
fn note<'a>(
    alloc: Global,
    offsets: &mut BTreeMap<&'a str, Vec<Span>>,
    key: &'a str,
    span: Span,
) -> Result<bool, AllocError>
    ensures offsets { OnOk result ((other : List ℕ) → spans_at offsets.new other
        ≡ (if bytes_eq key.now other then spans_at offsets.old other ++ span ∷ [] else spans_at offsets.old other)) }
    ensures second { IfOk result (λ second. second ≡ (length (spans_at offsets.old key.now) == 1)) }
{
    let mut spans = offsets.remove(key).unwrap_or(Vec::new(alloc));
    spans.push(span)?;
    let second = spans.len() == 2;
    offsets.insert(key, spans)?;
    Ok(second)
}

/// The spans of each key, and the keys that are given more than once, in the order of their first repeats.
fn gathered<'a>(
    alloc: Global,
    entries: &'a [Entry],
) -> Result<(BTreeMap<&'a str, Vec<Span>>, Vec<&'a str>), AllocError>
    ensures offsets { IfOk result (λ found. (key : List ℕ)
        → spans_at found.0 key ≡ spans_of (map entry_view entries.now) key) }
    ensures again { IfOk result (λ found. map (λ key. key.now) found.1.items
        ≡ repeated bytes_eq (keys_of (map entry_view entries.now))) }
{
    let mut offsets = BTreeMap::new(alloc);
    let mut again = Vec::new(alloc);
    for entry in entries {
        let key = entry.key.as_str();
        if note(alloc, &mut offsets, key, entry.key_span)? {
            again.push(key)?;
        }
    }
    Ok((offsets, again))
}

/// The spans that are noted for a key.
fn spans_of(
    alloc: Global,
    offsets: &BTreeMap<&str, Vec<Span>>,
    key: &str,
) -> Result<Vec<Span>, AllocError>
    ensures { IfOk result (λ spans. spans.items ≡ spans_at offsets.now key.now) }
{
    match offsets.get(key) {
        Some(spans) => Vec::from_slice(alloc, spans.as_slice()),
        None => Ok(Vec::new(alloc)),
    }
}

/// An error for each of the keys, at the spans that are noted for it.
fn errors_at(
    alloc: Global,
    offsets: &BTreeMap<&str, Vec<Span>>,
    keys: Vec<&str>,
) -> Result<Vec<HeaderError<Span>>, AllocError>
    ensures { IfOk result (λ errors. errors_view errors.items
        ≡ map (λ key. duplicate_at offsets.now key.now) keys.entry.items) }
{
    let mut errors = Vec::new(alloc);
    for key in keys {
        let locations = spans_of(alloc, offsets, key)?;
        errors.push(HeaderError {
            kind: HeaderErrorKind::DuplicateEntry,
            locations,
        })?;
    }
    Ok(errors)
}

/// An error for each key that is given more than once, at all its spans, in the order of the first repeats.
fn duplicate_errors(alloc: Global, entries: &[Entry]) -> Result<Vec<HeaderError<Span>>, AllocError>
    ensures { IfOk result (λ errors. errors_view errors.items ≡ duplicate_errors (map entry_view entries.now)) }
{
    let (offsets, again) = gathered(alloc, entries)?;
    errors_at(alloc, &offsets, again)
}

/// The error for what stopped a reading.
pub(super) fn error_of(alloc: Global, fault: Fault) -> Result<HeaderError<Span>, AllocError>
    ensures { IfOk result (λ error. errors_view (error ∷ []) ≡ fault_view fault ∷ []) }
{
    let mut locations = Vec::new(alloc);
    locations.push(fault.span)?;
    Ok(HeaderError {
        kind: fault.kind,
        locations,
    })
}

/// The errors of a section that reads as these entries, up to its end or what stopped the reading.
pub(super) fn errors_found(
    alloc: Global,
    entries: &[Entry],
    end: &Result<&str, Fault>,
) -> Result<Vec<HeaderError<Span>>, AllocError>
    ensures { IfOk result (λ errors. errors_view errors.items
        ≡ section_errors (map entry_view entries.now) (end_view end.now)) }
{
    let mut errors = duplicate_errors(alloc, entries)?;
    if let Err(fault) = end {
        errors.push(error_of(alloc, *fault)?)?;
    }
    Ok(errors)
}
