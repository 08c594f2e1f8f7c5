//! The parser of sections.

ghost use Rattle.std.specs.Prelude.{◌≡◌, length, drop, IfOk, IfErr};
ghost use Rattle.std.specs.Str.{IsCharBoundary};
ghost use Rattle.cfgwords.specs.TextSpans.{IsPiece};
ghost use Rattle.cfgsection.specs.SectionRefusal.{ListsErrors};
ghost use Rattle.cfgsection.specs.SectionOffsets.{IsFaultAt};
ghost use Rattle.cfgsection.specs.SectionReads.{ReturnsEntry, HasOneSection};
ghost use Rattle.cfgheader.specs.Headers.{ReturnsSection};

use crate::of_entries::{Header, header_of};
use cfgbase::Span;
use cfgkinds::Value;
use cfgsection::{HeaderFault, entry_at, section_entries};
use std::alloc::Global;

/// Reads the `%grmtools` section of a text.
#[derive(Clone, Copy)]
pub struct GrmtoolsSectionParser<'a> {
    src: &'a str,
    required: bool,
}

impl<'a> GrmtoolsSectionParser<'a> {
    /// A parser of the text, which must have a section if `required`.
    pub fn new(src: &'a str, required: bool) -> Self
        ensures { (result.src.now ≡ src.now) × (result.required ≡ required) }
    {
        GrmtoolsSectionParser { src, required }
    }

    /// Reads the section, and returns what it gives for each of its keys, and the offset in bytes right after its `}`.
    /// If there is no section and none is required, there are no keys, and the offset is 0.
    ///
    /// The text's section has exactly one reading: the entries that count as read, and the rest after it or what
    /// stopped the reading. The offset is a character boundary of the text, where that rest begins. So are both ends of
    /// each span of an error.
    ///
    /// # Errors
    ///
    /// An error for each key that is given more than once, in the order of the first repeats, with all its spans, and
    /// then the one that stopped the reading, if there is one; at least one error. Or running out of memory.
    pub fn parse(&self, alloc: Global) -> Result<(Header<Span>, usize), HeaderFault>
        ensures one { HasOneSection self.now.required self.now.src.now }
        ensures answer { ReturnsSection self.now.required self.now.src.now result }
        ensures end { IfOk result (λ x. IsCharBoundary self.now.src.now x.1) }
        ensures fault_offsets { IfErr result (IsFaultAt self.now.src.now) }
        ensures listed { IfErr result ListsErrors }
    {
        let (entries, rest) = section_entries(alloc, self.src, self.required)?;
        let header = header_of(alloc, entries)?;
        Ok((header, self.src.len().saturating_sub(rest.len())))
    }

    /// Reads the entry at an offset in bytes: its key in lower case, the key's span, its value, and the offset after
    /// the entry and the white space that follows it. That offset is a character boundary of the text, where another
    /// entry may be read, and the key's span is a piece of the text, as is each span of an error.
    ///
    /// # Errors
    ///
    /// The one error that stopped the reading, or running out of memory.
    pub fn parse_key_value(
        &self,
        alloc: Global,
        i: usize,
    ) -> Result<(String, Span, Value<Span>, usize), HeaderFault>
        requires { IsCharBoundary self.now.src.now i }
        ensures answer { ReturnsEntry (length self.now.src.now) (drop i self.now.src.now) result }
        ensures offsets { IfOk result (λ x. IsPiece self.now.src.now x.1 × IsCharBoundary self.now.src.now x.3) }
        ensures fault_offsets { IfErr result (IsFaultAt self.now.src.now) }
        ensures listed { IfErr result ListsErrors }
    {
        entry_at(alloc, self.src, i)
    }
}
