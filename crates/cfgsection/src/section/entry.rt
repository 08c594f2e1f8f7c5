//! Entries of a section, as they are read.

ghost use Rattle.std.specs.Prelude.{◌≡◌, map, option_map};
ghost use Rattle.cfgsection.specs.SectionReads.{entry_view, given, given_by};

use cfgbase::Span;
use cfgkinds::Value;

/// A key in lower case, its span, and its value.
#[derive(Drop)]
pub struct Entry {
    pub key: String,
    pub key_span: Span,
    pub value: Value<Span>,
}

/// The entry that gives a key its value: the last one of that key.
pub fn entry_of<'a>(entries: &'a [Entry], key: &str) -> Option<&'a Entry>
    ensures { option_map (λ entry. given_by (entry_view entry.now)) result
        ≡ given (map entry_view entries.now) key.now }
{
    let mut found = None;
    for entry in entries {
        if entry.key.as_str() == key {
            found = Some(entry);
        }
    }
    found
}
