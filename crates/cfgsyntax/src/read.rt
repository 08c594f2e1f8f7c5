//! Reading a whole text: its section, and the file after that.

ghost use Rattle.std.specs.Prelude.{◌≡◌, ◌≤◌, length, List, Option, IfOk, option_map};
ghost use Rattle.cfgitems.specs.Items.{Item};
ghost use Rattle.cfgitems.specs.Syntax.{syntax_of};
ghost use Rattle.cfgast.specs.TreeView.{syntax};
ghost use Rattle.cfgsyntax.specs.Reads.{HasOneReading, InFile, Reads, Stop};
ghost use Rattle.cfgsyntax.specs.Inner.Steps.{IsReadAfter, IsReadSection, stop_view};

use cfgast::{GrammarAST, tree_of};
use cfgbase::Span;
use cfgerrors::HeaderError;
use cfgitems::Syntax;
use cfgkinds::YaccKind;
use cfgreader::read_file;
use cfgsection::{HeaderFault, section_entries};
use cfgwords::fault::Fault;
use std::alloc::{AllocError, Global};

/// What stopped the reading of a text.
#[derive(Drop)]
pub(crate) enum Stopped {
    /// The errors of its section.
    Section(Vec<HeaderError<Span>>),
    /// A fault of its file.
    File(Fault),
}

/// The rest of a text after its section, which may be missing.
pub(crate) fn after_section(alloc: Global, text: &str) -> Result<&str, HeaderFault>
    ensures { IsReadSection text.now result }
{
    let (_, rest) = section_entries(alloc, text, false)?;
    Ok(rest)
}

/// What stopped the reading of a text, given what stopped that of its file.
fn stop_in_file(fault: Option<Fault>) -> Option<Stopped>
    ensures { option_map stop_view result ≡ option_map InFile fault }
{
    fault.map(Stopped::File)
}

/// Reads the rest of a text of `len` bytes after its section: what was read, and what stopped the reading, if anything
/// did.
fn read_after(
    alloc: Global,
    kind: YaccKind,
    len: usize,
    rest: &str,
) -> Result<(GrammarAST, Option<Stopped>), AllocError>
    requires { length rest.now ≤ len }
    ensures { IfOk result (IsReadAfter kind len rest.now) }
{
    let (syntax, fault) = read_file(alloc, kind, len, rest)?;
    Ok((tree_of(syntax), stop_in_file(fault)))
}

/// Reads a text as a grammar file of the kind, given the rest after its section: what was read, and what stopped the
/// reading, if anything did. After a section with errors nothing is read.
pub(crate) fn read(
    alloc: Global,
    kind: YaccKind,
    text: &str,
    rest: Result<&str, HeaderFault>,
) -> Result<(GrammarAST, Option<Stopped>), AllocError>
    requires { IsReadSection text.now rest }
    ensures one { HasOneReading kind text.now }
    ensures read { IfOk result (λ x. (items : List Item) (stop : Option Stop) → Reads kind text.now items stop
        → (syntax x.0 ≡ syntax_of items) × (option_map stop_view x.1 ≡ stop)) }
{
    match rest {
        Ok(rest) => read_after(alloc, kind, text.len(), rest),
        Err(HeaderFault::Errors(errors)) => {
            let nothing = Syntax::none(alloc);
            Ok((tree_of(nothing), Some(Stopped::Section(errors))))
        }
        Err(HeaderFault::OutOfMemory) => Err(AllocError),
    }
}
