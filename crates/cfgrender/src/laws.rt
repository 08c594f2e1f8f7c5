//! Carets are under the characters of a span: how an excerpt relates to columns and characters. No control characters
//! but tabs are shown, and no format characters.

ghost use Rattle.std.specs.Prelude.{◌≡◌, ◌+◌, ◌-◌, ℕ, List, false, length, max};
ghost use Rattle.std.specs.List.{flat_map, list_any};
ghost use Rattle.std.specs.Str.{IsCharBoundary, IsUtf8, chars};
ghost use Rattle.cfgbase.specs.declared.span.Span.{Span};
ghost use Rattle.cfglines.specs.Lines.{column, line_start};
ghost use Rattle.cfgrender.specs.Render.{carets, line_at, offset_in_line, shown_prefix, shown_span};
ghost use Rattle.cfgrender.specs.Render.{skipped, under_prefix};
ghost use Rattle.cfgrender.specs.Visible.{is_escaped, visible};

/// The first caret is under the character whose column is printed: as many characters precede it in its line, but for
/// those that come before the window on the line, and what is below them is as wide as what shows them.
#[tactic(auto, using(crate::proofs::Columns::carets_begin_at_column, crate::proofs::Columns::prefix_as_shown))]
pub fn carets_begin_at_column()
    ensures column { (text : List ℕ) (b : ℕ) → IsUtf8 text → IsCharBoundary text b
        → length (chars (shown_prefix (line_at text b) (offset_in_line text b)))
        + skipped (line_at text b) (offset_in_line text b) + 1 ≡ column text b }
    ensures width { (text : List ℕ) (b : ℕ) → IsUtf8 text → IsCharBoundary text b
        → let prefix = shown_prefix (line_at text b) (offset_in_line text b) in
        length (flat_map under_prefix (chars prefix)) ≡ length (chars (visible prefix)) }
{}

/// There are as many carets as characters show the shown part of a span, and one if it is empty.
#[tactic(auto, using(crate::proofs::Columns::carets_count_characters))]
pub fn carets_count_characters()
    ensures { (text : List ℕ) (span : Span) → IsUtf8 text → IsCharBoundary text span.start
        → let shown = shown_span (line_at text span.start) (offset_in_line text span.start)
        (span.end - line_start text span.start) in
        length (carets shown) ≡ max 1 (length (chars (visible shown))) }
{}

/// What shows a text has no control character other than tabs, and no format character.
#[tactic(auto, using(crate::proofs::Shown::shows_no_controls))]
pub fn shows_no_controls()
    ensures { (text : List ℕ) → IsUtf8 text → list_any is_escaped (chars (visible text)) ≡ false }
{}
