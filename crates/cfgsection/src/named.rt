//! The kind of Yacc that a text names.

ghost use Rattle.std.specs.Prelude.{◌≡◌, ◌∷◌, [], option_map, IfOk, IfErr};
ghost use Rattle.cfgerrors.specs.HeaderErrors.{InvalidEntry, error_view};
ghost use Rattle.cfgsection.specs.Named.{HasOneNaming, IsKindIfNamed, IsNaming, Naming, Names, first_part, kind_given};
ghost use Rattle.cfgsection.specs.SectionRefusal.{ListsErrors};
ghost use Rattle.cfgsection.specs.SectionOffsets.{IsFaultAt};
ghost use Rattle.cfgsection.specs.SectionReads.{IsAfterSection, entry_view, given_by};
ghost use Rattle.cfgkinds.specs.YaccKinds.{kind_namespace};

use crate::section::{Entry, HeaderFault, entry_of, section_entries};
use cfgbase::Span;
use cfgerrors::{HeaderError, HeaderErrorKind};
use cfgkinds::{KIND_NAMESPACE, KindFault, YaccKind};
use std::alloc::{AllocError, Global};

/// The error of a section without the key `yacckind`.
fn key_missing(alloc: Global) -> Result<HeaderError<Span>, AllocError>
    ensures { IfOk result (λ error. error_view error
        ≡ record { kind = InvalidEntry kind_namespace; locations = record { start = 0; end = 0 } ∷ [] }) }
{
    let mut locations = Vec::new(alloc);
    locations.push(Span::new(0, 0))?;
    Ok(HeaderError {
        kind: HeaderErrorKind::InvalidEntry(KIND_NAMESPACE),
        locations,
    })
}

/// The kind that is given for the key `yacckind`, if there is one.
fn kind_given(alloc: Global, given: Option<&Entry>) -> Result<YaccKind, HeaderFault>
    ensures { IsNaming (kind_given (option_map (λ entry. given_by (entry_view entry.now)) given.entry)) result }
{
    let error = match given {
        None => key_missing(alloc)?,
        Some(entry) => match YaccKind::try_from_value(alloc, &entry.value) {
            Ok(kind) => return Ok(kind),
            Err(KindFault::Error(error)) => error,
            Err(KindFault::OutOfMemory) => return Err(HeaderFault::OutOfMemory),
        },
    };
    let mut errors = Vec::new(alloc);
    errors.push(error)?;
    Err(HeaderFault::Errors(errors))
}

/// The kind that the section of a text names, and the rest of the text after the section. A text names one kind, or has
/// one list of errors, whose spans are pieces of the text.
///
/// # Errors
///
/// The errors of the section, which is required; if it has none, one error if it has no key `yacckind`, or if the key's
/// value is not a kind. Or running out of memory.
pub fn kind_named(alloc: Global, text: &str) -> Result<(YaccKind, &str), HeaderFault>
    ensures one { HasOneNaming text.now }
    ensures naming { (naming : Naming) → Names text.now naming → IsNaming naming (first_part result) }
    ensures rest { IfOk result (λ x. IsAfterSection text.now x.1.now) }
    ensures offsets { IfErr result (IsFaultAt text.now) }
    ensures listed { IfErr result ListsErrors }
{
    let (entries, rest) = section_entries(alloc, text, true)?;
    let kind = kind_given(alloc, entry_of(entries.as_slice(), KIND_NAMESPACE))?;
    Ok((kind, rest))
}

/// The kind that the section of a text names, and the rest of the text after the section. There is no kind if the text
/// has no section, or one without errors that has no key `yacckind`.
///
/// # Errors
///
/// The errors of the section; if it has none, one error if the value of `yacckind` is not a kind. Or running out of
/// memory.
pub fn kind_if_named(alloc: Global, text: &str) -> Result<(Option<YaccKind>, &str), HeaderFault>
    ensures naming { IsKindIfNamed text.now (first_part result) }
    ensures rest { IfOk result (λ x. IsAfterSection text.now x.1.now) }
    ensures offsets { IfErr result (IsFaultAt text.now) }
    ensures listed { IfErr result ListsErrors }
{
    let (entries, rest) = section_entries(alloc, text, false)?;
    let given = entry_of(entries.as_slice(), KIND_NAMESPACE);
    if given.is_none() {
        return Ok((None, rest));
    }
    let kind = kind_given(alloc, given)?;
    Ok((Some(kind), rest))
}
