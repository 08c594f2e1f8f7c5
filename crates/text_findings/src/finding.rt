//! Findings about a grammar, and where they are.

ghost use Rattle.std.specs.Prelude.{◌≡◌, [], ◌∷◌, IfOk, None, Some, option_map, string_bytes};
ghost use Rattle.text_findings.specs.Finding.{offset_of};

use cfgrammar::{Span, Spanned, SpansKind};
pub use finding_kinds::FindingKind;
use std::alloc::{AllocError, Global};
use std::fmt;
use std::marker::Model;

/// A finding about a grammar, at one or more spans.
#[derive(Debug, Drop)]
pub struct Finding {
    kind: FindingKind,
    spans: Vec<Span>,
    text: String,
    hint: Option<String>,
}

impl Model for Finding {
    ghost use Rattle.std.specs.Prelude.{option_map, string_bytes};
    ghost use Rattle.text_findings.specs.Finding.{ShownFinding};

    ghost Value = { ShownFinding };

    ghost view = { λ x. record {
      kind = x.kind;
      spans = x.spans.items;
      text = string_bytes x.text;
      hint = option_map string_bytes x.hint;
    } };
}

impl Finding {
    /// A finding of this kind, with its spans and its text, and without a note.
    pub fn new(kind: FindingKind, spans: Vec<Span>, text: String) -> Finding
        ensures { result ≡ record {
          kind = kind;
          spans = spans.items;
          text = string_bytes text;
          hint = None;
        } }
    {
        Finding {
            kind,
            spans,
            text,
            hint: None,
        }
    }

    /// A finding at one span.
    pub fn at(
        alloc: Global,
        kind: FindingKind,
        span: Span,
        text: String,
    ) -> Result<Finding, AllocError>
        ensures { IfOk result (λ x. x ≡ record {
          kind = kind;
          spans = span ∷ [];
          text = string_bytes text;
          hint = None;
        }) }
    {
        Ok(Finding::new(kind, vec![in alloc; span]?, text))
    }

    /// A finding at two spans, in this order.
    pub fn at_both(
        alloc: Global,
        kind: FindingKind,
        span: Span,
        other: Span,
        text: String,
    ) -> Result<Finding, AllocError>
        ensures { IfOk result (λ x. x ≡ record {
          kind = kind;
          spans = span ∷ (other ∷ []);
          text = string_bytes text;
          hint = None;
        }) }
    {
        Ok(Finding::new(kind, vec![in alloc; span, other]?, text))
    }

    /// The same finding with this note on it, if there is one.
    pub fn with_hint(self, hint: Option<String>) -> Finding
        ensures { result ≡ record self { hint = option_map string_bytes hint } }
    {
        Finding { hint, ..self }
    }

    /// Its offset in bytes: the start of its first span.
    pub fn offset(&self) -> usize
        ensures { result ≡ offset_of self.now }
    {
        match self.spans.first() {
            Some(span) => span.start(),
            None => 0,
        }
    }

    /// The kind of the finding.
    pub fn kind(&self) -> FindingKind
        ensures { result ≡ self.now.kind }
    {
        self.kind
    }

    /// The text of the finding.
    pub fn text(&self) -> &str
        ensures { result.now ≡ self.now.text }
    {
        &self.text
    }

    /// The note on the finding, if there is one.
    pub fn hint(&self) -> Option<&str>
        ensures { option_map (λ hint. hint.now) result ≡ self.now.hint }
    {
        self.hint.as_deref()
    }
}

impl fmt::Display for Finding {
    ghost output = { λ x. Some x.text };

    ghost styled_output = { λ x _. Some x.text };

    fn fmt<W: fmt::Write>(&self, f: &mut fmt::Formatter<W>) -> fmt::Result {
        f.write_str(&self.text)
    }
}

impl Spanned for Finding {
    ghost use Rattle.text_findings.specs.Finding.{spanskind_of};

    ghost spans = { λ x. x.spans };

    ghost spanskind = { λ x. spanskind_of x.kind };

    fn spans(&self) -> &[Span] {
        self.spans.as_slice()
    }

    fn spanskind(&self) -> SpansKind {
        match self.kind {
            FindingKind::ShadowedRule
            | FindingKind::StartWithoutSentence
            | FindingKind::NoSentence
            | FindingKind::CyclicRule
            | FindingKind::RepeatedProduction
            | FindingKind::ShiftReduce
            | FindingKind::ReduceReduce => SpansKind::DuplicationError,
            _ => SpansKind::Error,
        }
    }
}
