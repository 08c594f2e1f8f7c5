//! Keys of a file's section that nothing which reads grammars looks for.

ghost use Rattle.std.specs.Prelude.{◌≡◌, ◌++◌, length, map, option_map, slice_get, string_bytes, IfOk, OnOk};
ghost use Rattle.std.specs.List.{list_any};
ghost use Rattle.std.specs.Str.{bytes_eq};
ghost use Rattle.cfgrammar.specs.SectionReads.{entry_view};
ghost use Rattle.cfgnear.specs.Nearest.{nearest};
ghost use Rattle.text_findings.specs.Keys.{ReportsUnknownKey, entries_of, key_note, known_keys};
ghost use Rattle.text_findings.specs.Keys.{unknown, unknown_key};
ghost use Rattle.text_findings.specs.Reports.{ReportsBelow};

use crate::finding::{Finding, FindingKind};
use crate::reporter::{Reporter, push_reported};
use cfgnear::nearest;
use cfgrammar::Span;
use cfgsection::{Entry, HeaderFault, section_entries};
use std::alloc::{AllocError, Global};

/// The keys that programs which read grammars look for.
const KNOWN_KEYS: [&str; 3] = ["yacckind", "recoverer", "test_files"];

/// Adds a finding for each key of the text's section that nothing looks for, in the order of the text.
pub(crate) fn push_unknown_keys(
    alloc: Global,
    all: &mut Vec<Finding>,
    text: &str,
) -> Result<(), AllocError>
    ensures { OnOk result ((reported : _) × ReportsBelow (ReportsUnknownKey (entries_of text.now))
        (length (entries_of text.now)) reported × (all.new.items ≡ all.old.items ++ reported)) }
{
    let entries = entries_of(alloc, text)?;
    push_reported(alloc, all, &UnknownKeys(&entries), entries.len())
}

/// Reports the entries whose keys nothing looks for.
#[derive(Drop)]
struct UnknownKeys<'a>(&'a [Entry]);

impl Reporter for UnknownKeys<'_> {
    ghost use Rattle.std.specs.Prelude.{length, map};
    ghost use Rattle.cfgrammar.specs.SectionReads.{entry_view};
    ghost use Rattle.text_findings.specs.Keys.{ReportsUnknownKey};

    ghost count = { λ x. length (map entry_view x.0.now) };

    ghost reports = { λ x. ReportsUnknownKey (map entry_view x.0.now) };

    fn report(&self, alloc: Global, number: usize) -> Result<Option<Finding>, AllocError> {
        match entry_at(self.0, number) {
            Some(entry) => unknown(alloc, entry),
            None => Ok(None),
        }
    }
}

/// The entry with this number.
fn entry_at(entries: &[Entry], number: usize) -> Option<&Entry>
    ensures { option_map (λ entry. entry_view entry.now) result ≡ slice_get (map entry_view entries.now) number }
{
    entries.get(number)
}

/// The entries of the text's section, in the order of the text; none if it has no section, or one with errors.
fn entries_of(alloc: Global, text: &str) -> Result<Vec<Entry>, AllocError>
    ensures { IfOk result (λ entries. map entry_view entries.items ≡ entries_of text.now) }
{
    match section_entries(alloc, text, false) {
        Ok((entries, _)) => Ok(entries),
        Err(HeaderFault::Errors(_)) => Ok(Vec::new(alloc)),
        Err(HeaderFault::OutOfMemory) => Err(AllocError),
    }
}

/// The finding about an entry, if nothing looks for its key.
fn unknown(alloc: Global, entry: &Entry) -> Result<Option<Finding>, AllocError>
    ensures { IfOk result (λ found. found ≡ unknown (entry_view entry.now)) }
{
    if is_among(&KNOWN_KEYS, &entry.key) {
        return Ok(None);
    }
    Ok(Some(unknown_key(alloc, &entry.key, entry.key_span)?))
}

/// The finding that nothing looks for this key at this span.
fn unknown_key(alloc: Global, key: &str, span: Span) -> Result<Finding, AllocError>
    ensures { IfOk result (λ finding. finding ≡ unknown_key key.now span) }
{
    let hint = key_note(alloc, key)?;
    let text = format!(in alloc; "Unknown key '{key}' in the section")?;
    let finding = Finding::at(alloc, FindingKind::UnknownKey, span, text)?;
    Ok(finding.with_hint(Some(hint)))
}

/// Whether a word is one of these names.
fn is_among(names: &[&str], word: &str) -> bool
    ensures { result ≡ list_any (bytes_eq word.now) (map (λ name. name.now) names.now) }
{
    names.contains(&word)
}

/// The note on a key that nothing looks for: the nearest one of those that something does, or all of them.
fn key_note(alloc: Global, key: &str) -> Result<String, AllocError>
    ensures { IfOk result (λ words. string_bytes words ≡ key_note key.now) }
{
    match nearest_key(alloc, key)? {
        Some(other) => format!(in alloc; "did you mean '{other}'?"),
        None => String::from_str(
            alloc,
            "the keys are 'yacckind', 'recoverer' and 'test_files'",
        ),
    }
}

/// The nearest of the keys that something looks for, if one is near.
fn nearest_key(alloc: Global, key: &str) -> Result<Option<&'static str>, AllocError>
    ensures { IfOk result (λ found. option_map (λ other. other.now) found ≡ nearest key.now known_keys) }
{
    nearest(alloc, key, &KNOWN_KEYS)
}
