//! Why a rule has no sentence to return.

ghost use Rattle.std.specs.Prelude.{◌≡◌, Some};
ghost use Rattle.cfgcosts.specs.declared.errors.SentenceError.TheVariants.{OutOfMemory};
ghost use Rattle.cfgcosts.specs.Sentences.{sentence_error, sentence_error_text};

use derivation::CostError;
use std::alloc::AllocError;
use std::error::Error;
use std::fmt;

/// Why a rule's sentence was not returned.
#[derive(Clone, Copy, Debug, PartialEq, Eq)]
pub enum SentenceError {
    /// The rule has no sentence.
    NoSentence,
    /// Each of the rule's sentences costs more than 65535.
    CostTooLarge,
    /// An allocation failed.
    OutOfMemory,
}

impl From<CostError> for SentenceError {
    ghost from_gives = { λ cost error. error ≡ sentence_error cost };

    fn from(error: CostError) -> SentenceError {
        match error {
            CostError::NoSentence => SentenceError::NoSentence,
            CostError::CostTooLarge => SentenceError::CostTooLarge,
        }
    }
}

impl From<AllocError> for SentenceError {
    ghost from_gives = { λ _ error. error ≡ OutOfMemory };

    fn from(_refused: AllocError) -> SentenceError {
        SentenceError::OutOfMemory
    }
}

impl fmt::Display for SentenceError {
    ghost output = { λ error. Some (sentence_error_text error) };

    ghost styled_output = { λ error _. Some (sentence_error_text error) };

    fn fmt<W: fmt::Write>(&self, f: &mut fmt::Formatter<W>) -> fmt::Result {
        f.write_str(match self {
            SentenceError::NoSentence => "the rule has no sentence",
            SentenceError::CostTooLarge => "each sentence of the rule costs more than 65535",
            SentenceError::OutOfMemory => "out of memory",
        })
    }
}

impl Error for SentenceError {}
