//! What becomes of findings, kind by kind.

ghost use Rattle.std.specs.Prelude.{◌≡◌};
ghost use Rattle.finding_kinds.specs.FindingKinds.{all_levels, default_levels, level_of, with_level};

use crate::finding_kind::FindingKind;

/// What becomes of a finding.
#[derive(Clone, Copy, Debug, PartialEq, Eq)]
pub enum Level {
    /// It isn't reported.
    Allow,
    /// It is reported as a warning.
    Warn,
    /// It is reported as an error.
    Deny,
}

/// The level of each kind of finding.
#[derive(Clone, Copy, Debug)]
pub struct Levels {
    by_kind: [Level; 29],
}

impl Levels {
    /// A start rule without a sentence, an expectation that isn't met and a reference to no symbol are errors, and
    /// every other finding is a warning, except for two groups that aren't reported: those that only follow from a rule
    /// without a sentence, and those about a style that many files have.
    pub fn new() -> Self
        ensures { result ≡ default_levels }
    {
        let mut levels = Levels::all(Level::Warn);
        levels.set(FindingKind::StartWithoutSentence, Level::Deny);
        levels.set(FindingKind::UnusableRule, Level::Allow);
        levels.set(FindingKind::UnusableProduction, Level::Allow);
        levels.set(FindingKind::UselessSymbol, Level::Allow);
        levels.set(FindingKind::EscapedToken, Level::Allow);
        levels.set(FindingKind::ImplicitEmpty, Level::Allow);
        levels.set(FindingKind::UnmetExpect, Level::Deny);
        levels.set(FindingKind::UnknownReference, Level::Deny);
        levels
    }

    /// This level for all kinds.
    pub fn all(level: Level) -> Self
        ensures { result ≡ all_levels level }
    {
        Levels {
            by_kind: [level; 29],
        }
    }

    /// The level of a kind.
    pub fn of(&self, kind: FindingKind) -> Level
        ensures { result ≡ level_of self.now kind }
    {
        self.by_kind[kind.number()]
    }

    /// Gives a kind this level.
    pub fn set(&mut self, kind: FindingKind, level: Level)
        ensures { self.new ≡ with_level self.old kind level }
    {
        self.by_kind[kind.number()] = level;
    }
}
