//! The nearest of some names.

ghost use Rattle.std.specs.Prelude.{◌≡◌, ◌+◌, ◌^◌, ◌<◌, ◌↔◌, All, None, Some, false, if◌then◌else◌, length, map};
ghost use Rattle.std.specs.Prelude.{IfOk, option_map};
ghost use Rattle.std.specs.Str.{chars};
ghost use Rattle.cfgnear.specs.Nearest.{distance, is_closer, is_near, most_edits, nearest};

use std::alloc::{AllocError, Global};
use strsim::levenshtein;

/// The nearest of the names, and of several the first, if it is near enough: if the characters that have to be
/// inserted, deleted or replaced are at most a third of those of `name`, rounded up, and fewer than all. The name
/// itself isn't near.
///
/// # Errors
///
/// `AllocError` if an allocation fails.
pub fn nearest<'a>(
    alloc: Global,
    name: &str,
    names: &[&'a str],
) -> Result<Option<&'a str>, AllocError>
    ensures nearest { IfOk result (λ found. option_map (λ other. other.now) found
        ≡ nearest name.now (map (λ other. other.now) names.now)) }
    ensures none { IfOk result (λ found. (found ≡ None)
        ↔ All (λ other. is_near name.now other ≡ false) (map (λ other. other.now) names.now)) }
{
    let mut found = None;
    let mut bound = most_edits(name) + 1;
    for other in names {
        if let Some(edits) = edits_below(alloc, name, other, bound)? {
            found = Some(*other);
            bound = edits;
        }
    }
    Ok(found)
}

/// How many characters may differ between the name and one that is near.
fn most_edits(name: &str) -> usize
    ensures value { result ≡ most_edits name.now }
    ensures small { result + 1 < 2 ^ 64 }
{
    let length = char_count(name);
    length.div_ceil(3).min(length.saturating_sub(1))
}

/// How many characters differ between two names, if these are fewer than `bound` and the names aren't the same.
fn edits_below(
    alloc: Global,
    name: &str,
    other: &str,
    bound: usize,
) -> Result<Option<usize>, AllocError>
    ensures { IfOk result (λ edits. edits
        ≡ if is_closer name.now other.now bound then Some (distance name.now other.now) else None) }
{
    if name == other || char_count(name).abs_diff(char_count(other)) >= bound {
        return Ok(None);
    }
    let edits = levenshtein(alloc, name, other)?;
    Ok(if edits < bound { Some(edits) } else { None })
}

/// The number of characters of a text.
fn char_count(text: &str) -> usize
    ensures { result ≡ length (chars text.now) }
{
    text.chars().count()
}
