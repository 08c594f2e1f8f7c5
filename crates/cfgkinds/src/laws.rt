//! What `==` and `clone` of kinds and values compare and copy, and that a kind survives the conversion to a value and
//! back. Where they are derived, a law names the impl, as in `⟦<YaccKind as PartialEq>⟧`, and holds for every value.

ghost use Rattle.std.specs.Prelude.{◌≡◌, ◌≢◌, ◌↔◌, IsTrue, List, [], Ok, Err};
ghost use Rattle.cfgbase.specs.Locations.{location_view};
ghost use Rattle.cfgbase.specs.declared.span.Location.{Location};
ghost use Rattle.cfgkinds.specs.YaccKinds.{kind_of_value, value_of_kind};
ghost use Rattle.cfgkinds.specs.SameValues.{same_header_value, same_namespaced, same_value};
ghost use Rattle.cfgkinds.specs.Values.{ShownValue, header_value_view, map_value, namespaced_view, value_view};
ghost use Rattle.cfgkinds.specs.declared.value.HeaderValue.{HeaderValue};
ghost use Rattle.cfgkinds.specs.declared.value.Namespaced.{Namespaced};
ghost use Rattle.cfgkinds.specs.declared.value.Value.{Value};
ghost use Rattle.cfgkinds.specs.declared.kind.YaccKind.{YaccKind};
ghost use Rattle.cfgkinds.specs.declared.kind.YaccOriginalActionKind.{YaccOriginalActionKind};

use crate::kind::{YaccKind, YaccOriginalActionKind};
use crate::value::{HeaderValue, Namespaced, Value};

/// Two kinds of Yacc are equal exactly if they are the same. A clone equals its source and allocates nothing.
pub fn yacc_kinds_are_distinct()
    ensures equal { (a b : YaccKind) → IsTrue (⟦<YaccKind as PartialEq>⟧.eq a b) ↔ (a ≡ b) }
    ensures clone { (a b : YaccKind) → ⟦<YaccKind as Clone>⟧.is_clone a b → b ≡ a }
    ensures cloned { (a : YaccKind) → ⟦<YaccKind as Clone>⟧.is_infallible a }
{}

/// Two kinds of actions are equal exactly if they are the same. A clone equals its source and allocates nothing.
pub fn action_kinds_are_distinct()
    ensures equal { (a b : YaccOriginalActionKind)
        → IsTrue (⟦<YaccOriginalActionKind as PartialEq>⟧.eq a b) ↔ (a ≡ b) }
    ensures clone { (a b : YaccOriginalActionKind) → ⟦<YaccOriginalActionKind as Clone>⟧.is_clone a b
        → b ≡ a }
    ensures cloned { (a : YaccOriginalActionKind) → ⟦<YaccOriginalActionKind as Clone>⟧.is_infallible a }
{}

/// The value that is made from a kind names that kind.
pub fn kinds_come_back()
    ensures { (kind : YaccKind) (value : ShownValue Location) → map_value location_view value ≡ value_of_kind kind
        → kind_of_value value ≡ Ok kind }
{}

/// If a value names no kind, some part of it is wrong.
pub fn refusals_have_offsets<T>()
    ensures { (value : ShownValue T) (wrong : List T) → kind_of_value value ≡ Err wrong → wrong ≢ [] }
{}

/// `==` of names, of values and of keys' values compares every field: names and texts byte for byte, locations by their
/// own `==`.
pub fn values_are_compared_whole<T: PartialEq>()
    ensures name { (a b : Namespaced T) → ⟦<Namespaced<T> as PartialEq>⟧.eq a b
        ≡ same_namespaced T.eq (namespaced_view a) (namespaced_view b) }
    ensures value { (a b : Value T)
        → ⟦<Value<T> as PartialEq>⟧.eq a b ≡ same_value T.eq (value_view a) (value_view b) }
    ensures entry { (a b : HeaderValue T) → ⟦<HeaderValue<T> as PartialEq>⟧.eq a b
        ≡ same_header_value T.eq (header_value_view a) (header_value_view b) }
{}
