//! What named the kind that a text was read as.

/// What named the kind that a text was read as.
#[derive(Clone, Copy, Debug, PartialEq, Eq)]
pub enum KindSource {
    /// The text's section.
    Section,
    /// The caller, since the text has no section, or one that names no kind.
    Default,
}
