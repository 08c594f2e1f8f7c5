//! Findings that a comment in the text allows.

ghost use Rattle.std.specs.Prelude.{◌≡◌, [], IfOk, get_or, is_some, map};
ghost use Rattle.std.specs.List.{slice_split};
ghost use Rattle.cfgrammar.specs.Lines.{StandsFor, is_newline, line_number};
ghost use Rattle.cfgfindings.specs.Shown.{offset_of};
ghost use Rattle.cfgrammar.specs.Pieces.{strip};
ghost use Rattle.finding_kinds.specs.FindingKinds.{word_of};
ghost use Rattle.cfglint.specs.Allowed.{AreOf, allowed_in, allowed_lines, allows, is_allowed};

use cfgfindings::{Finding, FindingKind};
use cfgrammar::{FeedError, NewlineCache};
use constructs::{after_word, split_at_first};
use std::alloc::{AllocError, Global};

/// What the comments of a text allow.
#[derive(Drop)]
pub(crate) struct Allowances<'a> {
    /// What follows `cfglint-allow` in each line; an empty text in a line without it.
    lines: Vec<&'a str>,
    newlines: NewlineCache,
}

/// What follows the first `cfglint-allow ` of a line; nothing in a line without one.
fn allowed_in(line: &str) -> &str
    ensures { result.now ≡ allowed_in line.now }
{
    match split_at_first(line, "cfglint-allow ") {
        Some((_, rest)) => rest,
        None => "",
    }
}

/// The lines of a text, without their LFs.
fn lines<'a>(alloc: Global, text: &'a str) -> Result<Vec<&'a str>, AllocError>
    ensures { IfOk result (λ lines. map (λ line. line.now) lines.items ≡ slice_split is_newline text.now) }
{
    text.split('\n').collect(alloc)
}

/// What lines allow, line by line.
fn allowed_lines<'a>(alloc: Global, lines: &[&'a str]) -> Result<Vec<&'a str>, AllocError>
    ensures { IfOk result (λ allowed. map (λ line. line.now) allowed.items
        ≡ map allowed_in (map (λ line. line.now) lines.now)) }
{
    let mut allowed = Vec::new(alloc);
    for line in lines {
        allowed.push(allowed_in(line))?;
    }
    Ok(allowed)
}

/// Where the lines of a text end.
fn newlines(alloc: Global, text: &str) -> Result<NewlineCache, AllocError>
    ensures { IfOk result (λ newlines. StandsFor newlines text.now) }
{
    match NewlineCache::from_str(alloc, text) {
        Ok(newlines) => Ok(newlines),
        Err(_) => Err(AllocError),
    }
}

impl<'a> Allowances<'a> {
    /// What the comments of a text allow.
    ///
    /// # Errors
    ///
    /// Running out of memory.
    pub(crate) fn of(alloc: Global, text: &'a str) -> Result<Self, AllocError>
        ensures { IfOk result (AreOf text.now) }
    {
        Ok(Allowances {
            lines: allowed_lines(alloc, &lines(alloc, text)?)?,
            newlines: newlines(alloc, text)?,
        })
    }

    /// Whether findings of this kind are allowed by the line of this number, from 0.
    fn allows(&self, kind: FindingKind, line: usize) -> bool
        ensures { result ≡ allows (map (λ line. line.now) self.now.lines.items) kind line }
    {
        let allowed = self.lines.get(line).copied().unwrap_or("");
        after_word(allowed, kind.word()).is_some()
    }

    /// The number of the line of a finding about the text, from 1.
    fn line_of(&self, text: &str, finding: &Finding) -> usize
        requires { AreOf text.now self.now }
        ensures { result ≡ line_number text.now (offset_of finding.now) }
    {
        let offset = finding.offset().min(text.len());
        self.newlines.byte_to_line_num(offset).unwrap_or(0)
    }

    /// Whether a comment allows a finding about the text.
    pub(crate) fn cover(&self, text: &str, finding: &Finding) -> bool
        requires { AreOf text.now self.now }
        ensures { result ≡ is_allowed text.now finding.now }
    {
        let kind = finding.kind();
        let line = self.line_of(text, finding);
        self.allows(kind, line.saturating_sub(1)) || self.allows(kind, line.saturating_sub(2))
    }
}
