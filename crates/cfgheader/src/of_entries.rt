//! The header of a section's entries.

ghost use Rattle.std.specs.Prelude.{◌≡◌, map, IfOk, OnOk};
ghost use Rattle.std.specs.String.{string_cmp};
ghost use Rattle.cfgmarks.specs.Marks.{marks, changed, set_value};
ghost use Rattle.cfgsection.specs.SectionReads.{entry_view};
ghost use Rattle.cfgheader.specs.Headers.{IsHeaderOf};

use cfgbase::Span;
use cfgkinds::HeaderValue;
use cfgmarks::markmap::MarkMap;
use cfgsection::Entry;
use std::alloc::{AllocError, Global};

/// The keys of a section with their values, in the order of the keys.
pub type Header<T> = MarkMap<String, HeaderValue<T>>;

/// Gives an entry's key its value, without marks.
fn put(header: &mut Header<Span>, entry: Entry) -> Result<(), AllocError>
    ensures { OnOk result (marks header.new
        ≡ changed string_cmp (marks header.old) entry.key
        (set_value (record { 0 = entry.key_span; 1 = entry.value }))) }
{
    let value = HeaderValue(entry.key_span, entry.value);
    match header.insert(entry.key, value) {
        Ok(_) => Ok(()),
        Err(_) => Err(AllocError),
    }
}

/// The entries as a header, in which no key has a mark.
pub(crate) fn header_of(alloc: Global, entries: Vec<Entry>) -> Result<Header<Span>, AllocError>
    ensures { IfOk result (λ header. IsHeaderOf (map entry_view entries.items) header) }
{
    let mut header = MarkMap::new(alloc);
    for entry in entries {
        put(&mut header, entry)?;
    }
    Ok(header)
}
