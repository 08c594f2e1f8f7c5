//! Reading a text's section.

ghost use Rattle.std.specs.Prelude.{◌≡◌, map, length, IfOk};
ghost use Rattle.std.specs.Str.{IsUtf8};
ghost use Rattle.constructs.specs.Construct.{computes};
ghost use Rattle.cfgsection.specs.SectionGrammar.{section};
ghost use Rattle.cfgsection.specs.SectionReads.{HasOneSection, end_of, entry_view};
ghost use Rattle.cfgsection.specs.Inner.Steps.{end_view};

use crate::section::entry::Entry;
use crate::section::fault::{Fault, ReadFault};
use crate::section::reader::Reader;
use std::alloc::{AllocError, Global};

/// Reads the section of a text: its entries, and the rest after it or what stopped the reading.
pub(super) fn read(
    alloc: Global,
    text: &str,
    required: bool,
) -> Result<(Vec<Entry>, Result<&str, Fault>), AllocError>
    ensures one { HasOneSection required text.now }
    ensures utf8 { IsUtf8 text.now }
    ensures entries { IfOk result (λ x. map entry_view x.0.items
        ≡ (computes (section (length text.now) required) text.now).items) }
    ensures end { IfOk result (λ x. end_view x.1
        ≡ end_of (computes (section (length text.now) required) text.now).outcome) }
{
    let mut reader = Reader::new(alloc, text.len(), text);
    let end = match reader.section(required) {
        Ok(rest) => Ok(rest),
        Err(ReadFault::Fault(fault)) => Err(fault),
        Err(ReadFault::OutOfMemory) => return Err(AllocError),
    };
    Ok((reader.into_entries(), end))
}
