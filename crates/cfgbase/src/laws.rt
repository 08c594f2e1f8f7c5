//! What `==`, `clone` and `hash` of this crate's types compare, copy and feed. They are derived, so each law names the
//! impl, as in `⟦<Span as PartialEq>⟧`, and holds for every value.

ghost use Rattle.std.specs.Prelude.{◌≡◌, ◌↔◌, ◌++◌, IsTrue};
ghost use Rattle.std.specs.Hash as fed;
ghost use Rattle.cfgbase.specs.Locations.{location_view};
ghost use Rattle.cfgbase.specs.declared.span.Location.{Location};
ghost use Rattle.cfgbase.specs.declared.span.Location.TheVariants as location;
ghost use Rattle.cfgbase.specs.declared.span.Span.{Span};
ghost use Rattle.cfgbase.specs.declared.span.SpansKind.{SpansKind};

use crate::span::{Location, Span, SpansKind};
use std::hash::Hash;

/// Spans are equal exactly if both of their ends are. A clone equals its source and allocates nothing. A hash is fed
/// the start, and then the end.
pub fn spans_are_their_ends()
    ensures equal { (a b : Span) → IsTrue (⟦<Span as PartialEq>⟧.eq a b) ↔ (a ≡ b) }
    ensures clone { (a b : Span) → ⟦<Span as Clone>⟧.is_clone a b → b ≡ a }
    ensures cloned { (a : Span) → ⟦<Span as Clone>⟧.is_infallible a }
    ensures hash { (a : Span) → ⟦<Span as Hash>⟧.hash_input a ≡ fed.usize a.start ++ fed.usize a.end }
{}

/// Locations are equal exactly if they show the same: the same span, the command line, or the same description. A clone
/// shows what its source does, and allocates only for a description.
pub fn locations_are_what_they_show()
    ensures equal { (a b : Location)
        → IsTrue (⟦<Location as PartialEq>⟧.eq a b) ↔ (location_view a ≡ location_view b) }
    ensures clone { (a b : Location) → ⟦<Location as Clone>⟧.is_clone a b
        → location_view b ≡ location_view a }
    ensures cloned_span { (span : Span) → ⟦<Location as Clone>⟧.is_infallible (location.Span span) }
    ensures cloned_command_line { ⟦<Location as Clone>⟧.is_infallible location.CommandLine }
{}

/// The two kinds of spans differ, and each is equal to itself. A clone equals its source and allocates nothing.
pub fn spans_kinds_are_distinct()
    ensures equal { (a b : SpansKind) → IsTrue (⟦<SpansKind as PartialEq>⟧.eq a b) ↔ (a ≡ b) }
    ensures clone { (a b : SpansKind) → ⟦<SpansKind as Clone>⟧.is_clone a b → b ≡ a }
    ensures cloned { (a : SpansKind) → ⟦<SpansKind as Clone>⟧.is_infallible a }
{}
