//! Blanks: spaces, tabs, CRs, LFs, and comments.

ghost use Rattle.std.specs.Prelude.{◌≡◌, drop, true, false, length, ◌≤◌};
ghost use Rattle.std.specs.List.{list_any};
ghost use Rattle.constructs.specs.Pieces.{starts};
ghost use Rattle.cfgwords.specs.Blank.{passes_line_end};
ghost use Rattle.cfgwords.specs.Bytes.{holds};

use crate::bytes::ByteClass;
use crate::fault::FaultKind;
use crate::run::run;
use constructs::{after_word, split_at_first};

/// How a blank begins, and the rest after that.
#[derive(Clone, Copy, Debug)]
pub enum Prefix<'a> {
    /// A space, a tab, a CR or an LF.
    Gap(u8, &'a str),
    /// A line comment, its line end included: the rest.
    LineComment(&'a str),
    /// A closed block comment: what is between `/*` and `*/`, and the rest.
    BlockComment(&'a str, &'a str),
    /// A block comment without a closing `*/`: what follows its `/*`.
    OpenComment(&'a str),
    /// Not part of a blank.
    Bare,
}

/// The rest after the CR or LF that a text begins with; an empty text is its own rest.
fn after_line_end(text: &str) -> &str
    requires { starts (holds ByteClass.Line) text.now ≡ false }
    ensures { result.now ≡ drop 1 text.now }
{
    if text.is_empty() {
        return text;
    }
    text.split_at(1).1
}

/// Whether the text contains a CR or an LF.
fn has_line_end(text: &str) -> bool
    ensures { result ≡ list_any (holds ByteClass.LineEnd) text.now }
{
    text.as_bytes().iter().any(|b| ByteClass::LineEnd.holds(*b))
}

/// Whether there is a CR or an LF between the offset where `text` begins and the later one where `rest` does.
#[tactic(auto, unfolding(crate::specs::Blank::passes_line_end))]
pub fn passes_line_end(text: &str, rest: &str) -> bool
    ensures { result ≡ passes_line_end text.now rest.now }
{
    let passed = text.len().saturating_sub(rest.len());
    text.as_bytes()[..passed]
        .iter()
        .any(|b| ByteClass::LineEnd.holds(*b))
}

impl<'a> Prefix<'a> {
    ghost use Rattle.cfgwords.specs.Blank.{prefix_of, prefix_view, other_prefix, part_of, part_view};

    /// How a text begins that opens no comment.
    fn without_comment(text: &'a str) -> Prefix<'a>
        ensures { prefix_view result ≡ other_prefix text.now }
    {
        match text.as_bytes() {
            [b, ..] if ByteClass::Blank.holds(*b) => Prefix::Gap(*b, text.split_at(1).1),
            _ => Prefix::Bare,
        }
    }

    /// How the text begins.
    #[tactic(auto, unfolding(crate::specs::Blank::prefix_of))]
    pub fn of(text: &'a str) -> Prefix<'a>
        ensures { prefix_view result ≡ prefix_of text.now }
    {
        if let Some(inside) = after_word(text, "//") {
            let (_, tail) = run(inside, ByteClass::Line);
            return Prefix::LineComment(after_line_end(tail));
        }
        if let Some(inside) = after_word(text, "/*") {
            return match split_at_first(inside, "*/") {
                Some((body, rest)) => Prefix::BlockComment(body, rest),
                None => Prefix::OpenComment(inside),
            };
        }
        Prefix::without_comment(text)
    }

    /// The rest after a part of a blank; `None` if the blank ends before it. A blank within one line (`lines` is false)
    /// refuses a CR or LF with `ReachedEOL`, except for the one that ends a line comment; any other unclosed block
    /// comment is `IncompleteComment`.
    pub fn part(self, lines: bool) -> Result<Option<&'a str>, FaultKind>
        ensures { part_view result ≡ part_of lines (prefix_view self.entry) }
    {
        match self {
            Prefix::Gap(b, rest) if lines || !ByteClass::LineEnd.holds(b) => Ok(Some(rest)),
            Prefix::LineComment(rest) => Ok(Some(rest)),
            Prefix::BlockComment(body, rest) if lines || !has_line_end(body) => Ok(Some(rest)),
            Prefix::OpenComment(inside) if lines || !has_line_end(inside) => {
                Err(FaultKind::IncompleteComment)
            }
            Prefix::Bare => Ok(None),
            _ => Err(FaultKind::ReachedEOL),
        }
    }
}
