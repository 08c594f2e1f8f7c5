//! Warnings about a grammar, and where they are.

ghost use Rattle.std.specs.Prelude.{◌≡◌, ◌↔◌, IsTrue, IfOk, Some};
ghost use Rattle.std.specs.Cmp.{partial_equiv_from_equiv};
ghost use Rattle.cfgbase.specs.declared.span.SpansKind.TheVariants.{Error as each_is_an_offset};
ghost use Rattle.cfgerrors.specs.WarningTexts.{warning_text};
ghost use Rattle.cfgerrors.specs.Warnings.{same_warning, same_warning-equivalence, warning_at};

use cfgbase::{Span, Spanned, SpansKind};
use std::alloc::{AllocError, Global};
use std::fmt;
use std::marker::Model;

/// A warning about a grammar without errors.
#[derive(Clone, Debug, Drop, PartialEq, Eq)]
pub enum YaccGrammarWarningKind {
    /// No sequence of productions reaches this rule from the start rule.
    UnusedRule,
    /// No sequence of productions reaches this token from the start rule.
    UnusedToken,
}

impl fmt::Display for YaccGrammarWarningKind {
    ghost output = { λ kind. Some (warning_text kind) };

    ghost styled_output = { λ kind _. Some (warning_text kind) };

    fn fmt<W: fmt::Write>(&self, f: &mut fmt::Formatter<W>) -> fmt::Result {
        match self {
            YaccGrammarWarningKind::UnusedRule => f.write_str("Unused rule"),
            YaccGrammarWarningKind::UnusedToken => f.write_str("Unused token"),
        }
    }
}

/// A warning about a grammar: its kind, and where.
#[derive(Debug, Drop)]
pub struct YaccGrammarWarning {
    kind: YaccGrammarWarningKind,
    spans: Vec<Span>,
}

impl Model for YaccGrammarWarning {
    ghost use Rattle.cfgerrors.specs.Warnings.{GrammarWarning};

    ghost Value = { GrammarWarning };

    ghost view = { λ w. record { kind = w.kind; spans = w.spans.items } };
}

impl YaccGrammarWarning {
    /// The kind of the warning.
    pub fn kind(&self) -> &YaccGrammarWarningKind
        ensures { result.now ≡ self.now.kind }
    {
        &self.kind
    }
}

/// A warning at one span, as readers make it.
///
/// # Errors
///
/// `AllocError` if an allocation fails.
pub fn warning_at(
    alloc: Global,
    kind: YaccGrammarWarningKind,
    span: Span,
) -> Result<YaccGrammarWarning, AllocError>
    ensures { IfOk result (λ warning. warning ≡ warning_at kind span) }
{
    let mut spans = Vec::new(alloc);
    spans.push(span)?;
    Ok(YaccGrammarWarning { kind, spans })
}

impl PartialEq for YaccGrammarWarning {
    ghost eq = { same_warning };

    ghost laws = { partial_equiv_from_equiv same_warning-equivalence };

    fn eq(&self, other: &Self) -> bool
        ensures value { result ≡ same_warning self.now other.now }
        ensures same { IsTrue result ↔ (self.now ≡ other.now) }
    {
        self.kind == other.kind && self.spans == other.spans
    }
}

impl Eq for YaccGrammarWarning {
    ghost laws = { same_warning-equivalence };
}

impl Clone for YaccGrammarWarning {
    ghost is_clone = { λ x y. y ≡ x };

    fn clone(&self) -> Result<Self, AllocError> {
        Ok(YaccGrammarWarning {
            kind: self.kind.clone()?,
            spans: self.spans.clone()?,
        })
    }
}

impl fmt::Display for YaccGrammarWarning {
    ghost output = { λ w. Some (warning_text w.kind) };

    ghost styled_output = { λ w _. Some (warning_text w.kind) };

    fn fmt<W: fmt::Write>(&self, f: &mut fmt::Formatter<W>) -> fmt::Result {
        self.kind.fmt(f)
    }
}

impl Spanned for YaccGrammarWarning {
    ghost spans = { λ w. w.spans };

    ghost spanskind = { λ _. each_is_an_offset };

    fn spans(&self) -> &[Span] {
        self.spans.as_slice()
    }

    fn spanskind(&self) -> SpansKind {
        SpansKind::Error
    }
}
