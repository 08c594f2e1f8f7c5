//! The symbols that an error or a warning is about: the texts at its spans.

ghost use Rattle.std.specs.Prelude.{◌≡◌, IfOk, map};
ghost use Rattle.serde_json.specs.Data.{string};
ghost use Rattle.serde_json.specs.View.{items_of, items_view};
ghost use Rattle.cfgjson.specs.Objects.{is_boundary, text_at};

use cfgbase::Span;
use serde_json::{ToValue, Value};
use std::alloc::{AllocError, Global};

/// The texts at these spans.
pub(crate) fn symbols(alloc: Global, text: &str, spans: &[Span]) -> Result<Vec<Value>, AllocError>
    ensures { IfOk result (λ symbols. items_view symbols.items
        ≡ items_of (map string (map (text_at text.now) spans.now))) }
{
    let mut symbols = Vec::new(alloc);
    for span in spans {
        symbols.push(text_at(text, *span).to_value(alloc)?)?;
    }
    Ok(symbols)
}

/// The text at a span: empty if the span doesn't start and end at character boundaries of the text.
#[tactic(auto, unfolding(crate::specs::Objects::text_at))]
fn text_at(text: &str, span: Span) -> &str
    ensures { result.now ≡ text_at text.now span }
{
    let (start, end) = (span.start(), span.end());
    if is_boundary(text, start) && is_boundary(text, end) && start <= end {
        &text[start..end]
    } else {
        ""
    }
}

/// Whether the byte at this offset begins a character of the text, or the text ends there.
fn is_boundary(text: &str, byte: usize) -> bool
    ensures { result ≡ is_boundary text.now byte }
{
    text.is_char_boundary(byte)
}
