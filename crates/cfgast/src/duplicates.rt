//! What a file declares more than once, though it may declare it only once.

ghost use Rattle.std.specs.Prelude.{◌≡◌, [], map, IfOk};
ghost use Rattle.lemmas.specs.Lists.{repeated};
ghost use Rattle.cfgast.specs.Duplicates.{declared_by, duplicates, is_same};
ghost use Rattle.cfgitems.specs.SyntaxView.{occurrence_view};
ghost use Rattle.cfgast.specs.TreeView.{duplicate_view};

use cfgbase::Span;
use cfgitems::{Occurrence, Unique};
use indexmap::{IndexMap, IndexSet};
use std::alloc::{AllocError, Global};

/// What the occurrences declare more than once, in the order of the first repeats, with all its spans.
#[tactic(auto, unfolding(crate::specs::Duplicates::duplicates))]
pub fn duplicates(
    alloc: Global,
    occurrences: &[Occurrence],
) -> Result<IndexMap<&Unique, Vec<Span>>, AllocError>
    ensures { IfOk result (λ found. map duplicate_view found.entries
        ≡ duplicates (map occurrence_view occurrences.now)) }
{
    let mut found = repeated(alloc, occurrences)?;
    if found.is_empty() {
        return Ok(found);
    }
    for occurrence in occurrences {
        if let Some(offsets) = found.get_mut(&&occurrence.what) {
            offsets.push(occurrence.span)?;
        }
    }
    Ok(found)
}

// What the occurrences declare more than once, in the order of the first repeats, without its spans.
fn repeated(
    alloc: Global,
    occurrences: &[Occurrence],
) -> Result<IndexMap<&Unique, Vec<Span>>, AllocError>
    ensures { IfOk result (λ found. map duplicate_view found.entries
        ≡ map (λ what. record { what = what; spans = [] })
        (repeated is_same (declared_by (map occurrence_view occurrences.now)))) }
{
    let mut declared = IndexSet::with_capacity(alloc, occurrences.len())?;
    let mut again = IndexMap::new(alloc);
    for occurrence in occurrences {
        if !declared.insert(&occurrence.what)? {
            again.insert(&occurrence.what, Vec::new(alloc))?;
        }
    }
    Ok(again)
}
