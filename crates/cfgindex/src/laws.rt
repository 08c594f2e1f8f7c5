//! What `==`, order, `clone` and `hash` of indices and symbols compare, copy and feed. They are derived, so each law
//! names the impl, as in `⟦<RIdx<T> as PartialEq>⟧`, and holds for every value.

ghost use Rattle.std.specs.Prelude.{◌≡◌, ◌↔◌, Some, IsTrue};
ghost use Rattle.std.specs.Ordering.{nat_cmp};
ghost use Rattle.cfgindex.specs.SymbolCopies.{IsSymbolClone, stored, symbol_fed};
ghost use Rattle.cfgindex.specs.declared.idxnewtype.RIdx.{RIdx};
ghost use Rattle.cfgindex.specs.declared.idxnewtype.PIdx.{PIdx};
ghost use Rattle.cfgindex.specs.declared.idxnewtype.SIdx.{SIdx};
ghost use Rattle.cfgindex.specs.declared.idxnewtype.TIdx.{TIdx};
ghost use Rattle.cfgindex.specs.declared.idxnewtype.Symbol.{Symbol};

use crate::idxnewtype::{PIdx, RIdx, SIdx, Symbol, TIdx};
use crate::storage::Storage;
use std::hash::Hash;

/// Rules are equal exactly if they store the same number, and are ordered by that number. A clone holds a clone of what
/// is stored, and a hash is fed what the stored value feeds it.
pub fn rules_are_their_numbers<T: Storage>()
    ensures equal { (a b : RIdx T) → IsTrue (⟦<RIdx<T> as PartialEq>⟧.eq a b) ↔ (a ≡ b) }
    ensures number { (a b : RIdx T) → (a ≡ b) ↔ (T.number a.0 ≡ T.number b.0) }
    ensures order { (a b : RIdx T) → ⟦<RIdx<T> as Ord>⟧.cmp a b ≡ nat_cmp (T.number a.0) (T.number b.0) }
    ensures partial_order { (a b : RIdx T) → ⟦<RIdx<T> as PartialOrd>⟧.partial_cmp a b
        ≡ Some (nat_cmp (T.number a.0) (T.number b.0)) }
    ensures clone { (a b : RIdx T) → ⟦<RIdx<T> as Clone>⟧.is_clone a b ↔ T.is_clone a.0 b.0 }
    ensures cloned { (a : RIdx T) → ⟦<RIdx<T> as Clone>⟧.is_infallible a ↔ T.is_infallible a.0 }
    ensures hash { (a : RIdx T) → ⟦<RIdx<T> as Hash>⟧.hash_input a ≡ T.hash_input a.0 }
{}

/// Productions are equal exactly if they store the same number, and are ordered by that number. A clone holds a clone
/// of what is stored, and a hash is fed what the stored value feeds it.
pub fn productions_are_their_numbers<T: Storage>()
    ensures equal { (a b : PIdx T) → IsTrue (⟦<PIdx<T> as PartialEq>⟧.eq a b) ↔ (a ≡ b) }
    ensures number { (a b : PIdx T) → (a ≡ b) ↔ (T.number a.0 ≡ T.number b.0) }
    ensures order { (a b : PIdx T) → ⟦<PIdx<T> as Ord>⟧.cmp a b ≡ nat_cmp (T.number a.0) (T.number b.0) }
    ensures partial_order { (a b : PIdx T) → ⟦<PIdx<T> as PartialOrd>⟧.partial_cmp a b
        ≡ Some (nat_cmp (T.number a.0) (T.number b.0)) }
    ensures clone { (a b : PIdx T) → ⟦<PIdx<T> as Clone>⟧.is_clone a b ↔ T.is_clone a.0 b.0 }
    ensures cloned { (a : PIdx T) → ⟦<PIdx<T> as Clone>⟧.is_infallible a ↔ T.is_infallible a.0 }
    ensures hash { (a : PIdx T) → ⟦<PIdx<T> as Hash>⟧.hash_input a ≡ T.hash_input a.0 }
{}

/// Indices of symbols are equal exactly if they store the same number, and are ordered by that number. A clone holds a
/// clone of what is stored, and a hash is fed what the stored value feeds it.
pub fn positions_are_their_numbers<T: Storage>()
    ensures equal { (a b : SIdx T) → IsTrue (⟦<SIdx<T> as PartialEq>⟧.eq a b) ↔ (a ≡ b) }
    ensures number { (a b : SIdx T) → (a ≡ b) ↔ (T.number a.0 ≡ T.number b.0) }
    ensures order { (a b : SIdx T) → ⟦<SIdx<T> as Ord>⟧.cmp a b ≡ nat_cmp (T.number a.0) (T.number b.0) }
    ensures partial_order { (a b : SIdx T) → ⟦<SIdx<T> as PartialOrd>⟧.partial_cmp a b
        ≡ Some (nat_cmp (T.number a.0) (T.number b.0)) }
    ensures clone { (a b : SIdx T) → ⟦<SIdx<T> as Clone>⟧.is_clone a b ↔ T.is_clone a.0 b.0 }
    ensures cloned { (a : SIdx T) → ⟦<SIdx<T> as Clone>⟧.is_infallible a ↔ T.is_infallible a.0 }
    ensures hash { (a : SIdx T) → ⟦<SIdx<T> as Hash>⟧.hash_input a ≡ T.hash_input a.0 }
{}

/// Tokens are equal exactly if they store the same number, and are ordered by that number. A clone holds a clone of
/// what is stored, and a hash is fed what the stored value feeds it.
pub fn tokens_are_their_numbers<T: Storage>()
    ensures equal { (a b : TIdx T) → IsTrue (⟦<TIdx<T> as PartialEq>⟧.eq a b) ↔ (a ≡ b) }
    ensures number { (a b : TIdx T) → (a ≡ b) ↔ (T.number a.0 ≡ T.number b.0) }
    ensures order { (a b : TIdx T) → ⟦<TIdx<T> as Ord>⟧.cmp a b ≡ nat_cmp (T.number a.0) (T.number b.0) }
    ensures partial_order { (a b : TIdx T) → ⟦<TIdx<T> as PartialOrd>⟧.partial_cmp a b
        ≡ Some (nat_cmp (T.number a.0) (T.number b.0)) }
    ensures clone { (a b : TIdx T) → ⟦<TIdx<T> as Clone>⟧.is_clone a b ↔ T.is_clone a.0 b.0 }
    ensures cloned { (a : TIdx T) → ⟦<TIdx<T> as Clone>⟧.is_infallible a ↔ T.is_infallible a.0 }
    ensures hash { (a : TIdx T) → ⟦<TIdx<T> as Hash>⟧.hash_input a ≡ T.hash_input a.0 }
{}

/// Symbols are equal exactly if they are the same: rules or tokens with the same index. A clone is of the same kind and
/// holds a clone of what is stored. A hash is fed the kind, and then what the stored value feeds it.
pub fn symbols_are_their_indices<T: Storage>()
    ensures equal { (a b : Symbol T) → IsTrue (⟦<Symbol<T> as PartialEq>⟧.eq a b) ↔ (a ≡ b) }
    ensures clone { (a b : Symbol T) → ⟦<Symbol<T> as Clone>⟧.is_clone a b ↔ IsSymbolClone T.is_clone a b }
    ensures cloned { (a : Symbol T) → ⟦<Symbol<T> as Clone>⟧.is_infallible a ↔ T.is_infallible (stored a) }
    ensures hash { (a : Symbol T) → ⟦<Symbol<T> as Hash>⟧.hash_input a ≡ symbol_fed T.hash_input a }
{}
