//! What `==` and `clone` of kinds of findings and of levels compare and copy, and what words name. The impls are
//! derived, so each law names the impl, as in `⟦<FindingKind as PartialEq>⟧`, and is true of every value.

ghost use Rattle.std.specs.Prelude.{◌≡◌, ◌↔◌, IsTrue, ℕ, List, Some};
ghost use Rattle.finding_kinds.specs.FindingKinds.{finding_named, level_of, with_level, word_of};
ghost use Rattle.finding_kinds.specs.declared.finding_kind.FindingKind.{FindingKind};
ghost use Rattle.finding_kinds.specs.declared.levels.Level.{Level};
ghost use Rattle.finding_kinds.specs.declared.levels.Levels.{Levels};

use crate::finding_kind::FindingKind;
use crate::levels::{Level, Levels};

/// Each kind of finding, and each level, equals only itself. A clone equals its source, and allocates nothing.
pub fn finding_kinds_are_distinct()
    ensures equal { (a b : FindingKind) → IsTrue (⟦<FindingKind as PartialEq>⟧.eq a b) ↔ (a ≡ b) }
    ensures clone { (a b : FindingKind) → ⟦<FindingKind as Clone>⟧.is_clone a b → b ≡ a }
    ensures cloned { (a : FindingKind) → ⟦<FindingKind as Clone>⟧.is_infallible a }
    ensures equal_levels { (a b : Level) → IsTrue (⟦<Level as PartialEq>⟧.eq a b) ↔ (a ≡ b) }
    ensures clone_level { (a b : Level) → ⟦<Level as Clone>⟧.is_clone a b → b ≡ a }
    ensures cloned_level { (a : Level) → ⟦<Level as Clone>⟧.is_infallible a }
    ensures clone_levels { (a b : Levels) → ⟦<Levels as Clone>⟧.is_clone a b → b ≡ a }
    ensures cloned_levels { (a : Levels) → ⟦<Levels as Clone>⟧.is_infallible a }
{}

/// Each kind of finding is named by its word, and by no other.
pub fn words_name_kinds()
    ensures { (word : List ℕ) (kind : FindingKind) → (finding_named word ≡ Some kind) ↔ (word ≡ word_of kind) }
{}

/// A kind has the level that it was given last, whatever other kinds were given.
#[tactic(auto, using(crate::proofs::ByKind::given_level, crate::proofs::ByKind::other_level))]
pub fn levels_are_by_kind()
    ensures given { (levels : Levels) (kind : FindingKind) (level : Level)
        → level_of (with_level levels kind level) kind ≡ level }
    ensures others { (levels : Levels) (kind other : FindingKind) (level : Level)
        → (other ≡ kind → ⊥) → level_of (with_level levels kind level) other ≡ level_of levels other }
{}
