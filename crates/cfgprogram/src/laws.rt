//! What `==` and `clone` of kinds, faults and reasons compare and copy. They are derived, so each law names the impl,
//! as in `⟦<KindArg as PartialEq>⟧`, and holds for every value.

ghost use Rattle.std.specs.Prelude.{◌≡◌, ◌↔◌, IsTrue};
ghost use Rattle.cfgprogram.specs.declared.kinds.KindArg.{KindArg};
ghost use Rattle.cfgprogram.specs.declared.arguments.ArgumentsFault.{ArgumentsFault};
ghost use Rattle.cfgprogram.specs.declared.source.ReadError.{ReadError};

use crate::arguments::ArgumentsFault;
use crate::kinds::KindArg;
use crate::source::ReadError;

/// Two kinds, faults or reasons are equal exactly if they are the same. A clone equals its source and allocates
/// nothing.
pub fn kinds_are_distinct()
    ensures equal_kinds { (a b : KindArg) → IsTrue (⟦<KindArg as PartialEq>⟧.eq a b) ↔ (a ≡ b) }
    ensures clone_kind { (a b : KindArg) → ⟦<KindArg as Clone>⟧.is_clone a b → b ≡ a }
    ensures cloned_kind { (a : KindArg) → ⟦<KindArg as Clone>⟧.is_infallible a }
    ensures equal_faults { (a b : ArgumentsFault) → IsTrue (⟦<ArgumentsFault as PartialEq>⟧.eq a b) ↔ (a ≡ b) }
    ensures clone_fault { (a b : ArgumentsFault) → ⟦<ArgumentsFault as Clone>⟧.is_clone a b → b ≡ a }
    ensures cloned_fault { (a : ArgumentsFault) → ⟦<ArgumentsFault as Clone>⟧.is_infallible a }
    ensures equal_reasons { (a b : ReadError) → IsTrue (⟦<ReadError as PartialEq>⟧.eq a b) ↔ (a ≡ b) }
    ensures clone_reason { (a b : ReadError) → ⟦<ReadError as Clone>⟧.is_clone a b → b ≡ a }
    ensures cloned_reason { (a : ReadError) → ⟦<ReadError as Clone>⟧.is_infallible a }
{}
