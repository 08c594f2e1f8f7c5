//! An error or a warning, as a person reads it.

ghost use Rattle.std.specs.Prelude.{◌≡◌, ℕ, List, IfOk, IfSome, string_bytes};
ghost use Rattle.cfgrender.specs.Render.{RendersEach, rendered};

use crate::source::Source;
use cfgbase::Spanned;
use std::alloc::{AllocError, Global};

/// Renders an error or a warning in a text of this name: the line and the column where its first span starts, what it
/// says, and that line of the text with carets under the span. The spans of duplicates follow, each in the same form.
/// A span that doesn't start at a character boundary of the text is rendered without a line of it. In the name, in
/// what the error says and in the line, control characters other than tabs and format characters are replaced by
/// their escapes, as [`Visible`](crate::Visible) does.
///
/// # Errors
///
/// `AllocError` if an allocation fails.
pub fn render<E: Spanned>(
    alloc: Global,
    name: &str,
    text: &str,
    error: &E,
) -> Result<String, AllocError>
    ensures { IfOk result (λ out. (message : List ℕ) × IfSome (E.output error.now) (λ printed. message ≡ printed)
        × (string_bytes out ≡ rendered name.now text.now message (E.spans error.now) (E.spanskind error.now))) }
{
    let source = Source::new(alloc, name, text)?;
    let mut out = String::new(alloc);
    source.push(alloc, &mut out, error)?;
    Ok(out)
}

/// Renders each of the errors or warnings as [`render`] does, one after another. The lines of the text are found once
/// for all of them.
///
/// # Errors
///
/// `AllocError` if an allocation fails.
pub fn render_all<E: Spanned>(
    alloc: Global,
    name: &str,
    text: &str,
    errors: &[E],
) -> Result<String, AllocError>
    ensures { IfOk result (λ out. RendersEach (λ error message. IfSome (E.output error) (λ printed. message ≡ printed))
        E.spans E.spanskind name.now text.now errors.now (string_bytes out)) }
{
    let source = Source::new(alloc, name, text)?;
    let mut out = String::new(alloc);
    for error in errors {
        source.push(alloc, &mut out, error)?;
    }
    Ok(out)
}
