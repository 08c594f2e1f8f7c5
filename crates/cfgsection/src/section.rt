//! Reading a `%grmtools` section.

mod entries;
mod entry;
mod errors;
mod fault;
mod header_fault;
mod laws;
mod read;
mod reader;
mod settings;

ghost use Rattle.std.specs.Prelude.{length, drop, IfOk, IfErr};
ghost use Rattle.std.specs.Str.{IsCharBoundary, IsUtf8};
ghost use Rattle.cfgwords.specs.TextSpans.{IsPiece};
ghost use Rattle.cfgsection.specs.SectionRefusal.{ListsErrors};
ghost use Rattle.cfgsection.specs.SectionOffsets.{IsFaultAt};
ghost use Rattle.cfgsection.specs.SectionReads.{ReturnsEntry, HasOneSection, IsSectionRead, section_of};

use cfgbase::Span;
use cfgkinds::Value;
pub use entry::{Entry, entry_of};
use errors::{error_of, errors_found};
use fault::ReadFault;
pub use header_fault::HeaderFault;
pub use laws::{
    entry_is_graph, section_errors_are_at_offsets, section_is_graph, section_returns_its_reading,
};
use read::read;
use reader::Reader;
use std::alloc::Global;

/// Reads the section of a text, and returns its entries, each with another key, and the rest of the text after its `}`.
/// If there is no section and none is required, there are no entries, and the rest is the whole text.
///
/// The text's section has exactly one reading: the entries that count as read, and the rest after it or what stopped
/// the reading. Both ends of each span of an error are character boundaries of the text.
///
/// # Errors
///
/// An error for each key that is given more than once, in the order of the first repeats, with all its spans, and then
/// the one that stopped the reading, if there is one; at least one error. Or running out of memory.
pub fn section_entries(
    alloc: Global,
    text: &str,
    required: bool,
) -> Result<(Vec<Entry>, &str), HeaderFault>
    ensures one { HasOneSection required text.now }
    ensures utf8 { IsUtf8 text.now }
    ensures answer { IsSectionRead (section_of required text.now) result }
    ensures fault_offsets { IfErr result (IsFaultAt text.now) }
    ensures listed { IfErr result ListsErrors }
{
    let (entries, end) = read(alloc, text, required)?;
    let errors = errors_found(alloc, entries.as_slice(), &end)?;
    let Ok(rest) = end else {
        return Err(HeaderFault::Errors(errors));
    };
    if !errors.is_empty() {
        return Err(HeaderFault::Errors(errors));
    }
    Ok((entries, rest))
}

/// Reads the entry at an offset of a text, in bytes: its key in lower case, the key's span, its value, and the offset
/// after the entry and the white space that follows it. That offset is a character boundary of the text, and the key's
/// span is a piece of it, as is each span of an error.
///
/// # Errors
///
/// The one error that stopped the reading, or running out of memory.
pub fn entry_at(
    alloc: Global,
    text: &str,
    i: usize,
) -> Result<(String, Span, Value<Span>, usize), HeaderFault>
    requires { IsCharBoundary text.now i }
    ensures answer { ReturnsEntry (length text.now) (drop i text.now) result }
    ensures offsets { IfOk result (λ x. IsPiece text.now x.1 × IsCharBoundary text.now x.3) }
    ensures fault_offsets { IfErr result (IsFaultAt text.now) }
    ensures listed { IfErr result ListsErrors }
{
    let (_, rest) = text.split_at(i);
    let mut reader = Reader::new(alloc, text.len(), rest);
    match reader.entry() {
        Ok(entry) => Ok((entry.key, entry.key_span, entry.value, reader.offset())),
        Err(ReadFault::OutOfMemory) => Err(HeaderFault::OutOfMemory),
        Err(ReadFault::Fault(fault)) => {
            let mut errors = Vec::new(alloc);
            errors.push(error_of(alloc, fault)?)?;
            Err(HeaderFault::Errors(errors))
        }
    }
}
