//! Why a syntax isn't given another start.

ghost use Rattle.std.specs.Prelude.{◌≡◌, ◌↔◌, IsTrue, Some, string_bytes};
ghost use Rattle.std.specs.Cmp.{partial_equiv_from_equiv};
ghost use Rattle.cfgerrors.specs.Errors.{InvalidStartRule, kind_view, same_kind, same_kind-equivalence};
ghost use Rattle.cfgerrors.specs.ErrorTexts.{error_text};
ghost use Rattle.cfgfaults.specs.StartFaultTexts.{start_fault_text};
ghost use Rattle.cfgfaults.specs.declared.start.StartFault.TheVariants.{OutOfMemory};

use cfgerrors::YaccGrammarErrorKind;
use std::alloc::AllocError;
use std::error::Error;
use std::fmt;
use std::marker::Model;

/// A change that a syntax doesn't permit.
#[derive(Debug, Drop)]
pub struct ASTModificationError {
    kind: YaccGrammarErrorKind,
}

impl Model for ASTModificationError {
    ghost use Rattle.cfgerrors.specs.Errors.{ErrorKind, kind_view};

    ghost Value = { ErrorKind };

    ghost view = { λ e. kind_view e.kind };
}

impl ASTModificationError {
    /// What is wrong with the change.
    pub fn kind(&self) -> &YaccGrammarErrorKind
        ensures { kind_view result.now ≡ self.now }
    {
        &self.kind
    }
}

impl fmt::Display for ASTModificationError {
    ghost output = { λ e. Some (error_text e) };

    ghost styled_output = { λ e _. Some (error_text e) };

    fn fmt<W: fmt::Write>(&self, f: &mut fmt::Formatter<W>) -> fmt::Result {
        self.kind.fmt(f)
    }
}

impl Error for ASTModificationError {}

impl PartialEq for ASTModificationError {
    ghost eq = { same_kind };

    ghost laws = { partial_equiv_from_equiv same_kind-equivalence };

    fn eq(&self, other: &Self) -> bool
        ensures value { result ≡ same_kind self.now other.now }
        ensures same { IsTrue result ↔ (self.now ≡ other.now) }
    {
        self.kind == other.kind
    }
}

impl Eq for ASTModificationError {
    ghost laws = { same_kind-equivalence };
}

impl Clone for ASTModificationError {
    ghost is_clone = { λ x y. y ≡ x };

    fn clone(&self) -> Result<Self, AllocError> {
        Ok(ASTModificationError {
            kind: self.kind.clone()?,
        })
    }
}

/// That no rule has the name of a start.
pub fn invalid_start(name: String) -> ASTModificationError
    ensures { result ≡ InvalidStartRule (string_bytes name) }
{
    let kind = YaccGrammarErrorKind::InvalidStartRule(name);
    ASTModificationError { kind }
}

/// Why a syntax wasn't given another start.
#[derive(Debug, Drop)]
pub enum StartFault {
    /// No rule has the name: the kind is `InvalidStartRule`, with that name.
    Modification(ASTModificationError),
    /// Out of memory.
    OutOfMemory,
}

impl From<AllocError> for StartFault {
    ghost from_gives = { λ _ fault. fault ≡ OutOfMemory };

    fn from(_refused: AllocError) -> StartFault {
        StartFault::OutOfMemory
    }
}

impl fmt::Display for StartFault {
    ghost output = { λ fault. Some (start_fault_text fault) };

    ghost styled_output = { λ fault _. Some (start_fault_text fault) };

    fn fmt<W: fmt::Write>(&self, f: &mut fmt::Formatter<W>) -> fmt::Result {
        match self {
            StartFault::Modification(error) => error.fmt(f),
            StartFault::OutOfMemory => f.write_str("out of memory"),
        }
    }
}

impl Error for StartFault {}
