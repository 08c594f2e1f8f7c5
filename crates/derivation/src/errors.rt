//! Why a rule has no cost to return.

ghost use Rattle.std.specs.Prelude.{◌≡◌, ◌↔◌, IsTrue, Some};
ghost use Rattle.derivation.specs.declared.errors.CostError.{CostError};
ghost use Rattle.derivation.specs.CostErrorTexts.{cost_error_text};

use std::error::Error;
use std::fmt;

/// Why a rule has no cost to return.
#[derive(Clone, Copy, Debug, PartialEq, Eq)]
pub enum CostError {
    /// The rule has no sentence.
    NoSentence,
    /// The cost is more than 65535.
    CostTooLarge,
}

impl fmt::Display for CostError {
    ghost output = { λ error. Some (cost_error_text error) };

    ghost styled_output = { λ error _. Some (cost_error_text error) };

    fn fmt<W: fmt::Write>(&self, f: &mut fmt::Formatter<W>) -> fmt::Result {
        f.write_str(match self {
            CostError::NoSentence => "the rule has no sentence",
            CostError::CostTooLarge => "the cost is more than 65535",
        })
    }
}

impl Error for CostError {}

/// A cost error equals only itself. A clone equals its source, and allocates nothing.
pub fn cost_errors_are_distinct()
    ensures equal { (a b : CostError) → IsTrue (⟦<CostError as PartialEq>⟧.eq a b) ↔ (a ≡ b) }
    ensures clone { (a b : CostError) → ⟦<CostError as Clone>⟧.is_clone a b → b ≡ a }
    ensures cloned { (a : CostError) → ⟦<CostError as Clone>⟧.is_infallible a }
{}
