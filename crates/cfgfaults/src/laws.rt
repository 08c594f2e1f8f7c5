//! What `==` and `clone` of kind sources compare and copy: a law names the derived impls.

ghost use Rattle.std.specs.Prelude.{◌≡◌, ◌↔◌, IsTrue};
ghost use Rattle.cfgfaults.specs.declared.source.KindSource.{KindSource};

use crate::KindSource;

/// Two kind sources are equal exactly if they are the same. A clone equals its source and allocates nothing.
pub fn kind_sources_are_distinct()
    ensures equal { (a b : KindSource) → IsTrue (⟦<KindSource as PartialEq>⟧.eq a b) ↔ (a ≡ b) }
    ensures clone { (a b : KindSource) → ⟦<KindSource as Clone>⟧.is_clone a b → b ≡ a }
    ensures cloned { (a : KindSource) → ⟦<KindSource as Clone>⟧.is_infallible a }
{}
