//! Reading a file, from the end of a text's section.

ghost use Rattle.std.specs.Prelude.{◌≡◌, ◌≤◌, IfOk, length};
ghost use Rattle.constructs.specs.Construct.{computes};
ghost use Rattle.constructs.specs.Read.{stop_of};
ghost use Rattle.cfgreader.specs.ReadFile.{IsFile};
ghost use Rattle.cfgreader.specs.Inner.Builds.{Grows};
ghost use Rattle.cfgreader.specs.FileGrammar.{file};

use super::reader::{ReadFault, Reader};
use cfgitems::Syntax;
use cfgkinds::YaccKind;
use cfgwords::fault::Fault;
use std::alloc::{AllocError, Global};

/// Reads the rest of a text of `len` bytes as a grammar file of the kind: what was read, and what stopped the reading,
/// if anything did.
pub fn read_file(
    alloc: Global,
    kind: YaccKind,
    len: usize,
    rest: &str,
) -> Result<(Syntax, Option<Fault>), AllocError>
    requires { length rest.now ≤ len }
    ensures { IfOk result (IsFile kind len rest.now) }
{
    let mut reader = Reader::new(alloc, len, rest);
    let stop = stop_in(&mut reader, kind);
    reader.into_syntax().with_end(stop)
}

/// Passes a whole file, or as much of it as can be read: what stopped the reading, if anything did.
fn stop_in(reader: &mut Reader<'_>, kind: YaccKind) -> Result<Option<Fault>, AllocError>
    ensures { IfOk result (λ stop.
        Grows reader.old reader.new (computes (file kind reader.old.len) reader.old.rest.now).items
        × (stop ≡ stop_of (computes (file kind reader.old.len) reader.old.rest.now).outcome)) }
{
    match reader.file(kind) {
        Ok(()) => Ok(None),
        Err(ReadFault::Fault(fault)) => Ok(Some(fault)),
        Err(ReadFault::OutOfMemory) => Err(AllocError),
    }
}
