//! The spans of an error, and what they mean.

ghost use Rattle.std.specs.Prelude.{◌≡◌, IfOk};
ghost use Rattle.bison_errors.specs.ErrorSpans.{spans_of, spanskind_of};

use crate::error::{Error, ErrorKind};
use cfgbase::{Span, SpansKind};
use std::alloc::{AllocError, Global};

impl Error {
    /// What its spans mean: `DuplicationError` if something is given a second time, and the other place is where it was
    /// given first.
    pub fn spanskind(&self) -> SpansKind
        ensures { result ≡ spanskind_of self.now.kind }
    {
        match self.kind {
            ErrorKind::RepeatedInProduction
            | ErrorKind::SeveralStarts
            | ErrorKind::RuleIsToken
            | ErrorKind::DuplicatePrecedence => SpansKind::DuplicationError,
            _ => SpansKind::Error,
        }
    }

    /// Where it is, and then the other place, if it has one. So of what is given twice the second time comes first,
    /// unlike in the `spans` of a `Spanned`.
    ///
    /// # Errors
    ///
    /// `AllocError` if an allocation fails.
    pub fn spans(&self, alloc: Global) -> Result<Vec<Span>, AllocError>
        ensures { IfOk result (λ spans. spans.items ≡ spans_of self.now) }
    {
        let mut spans = Vec::new(alloc);
        spans.push(self.span)?;
        if let Some(other) = self.other {
            spans.push(other)?;
        }
        Ok(spans)
    }
}
