//! What opens productions for a walk: borrowed tables, which count nothing, or productions that count their openings.

ghost use Rattle.std.specs.Prelude.{◌≡◌, ℕ, ◌-◌, ◌^◌, ◌<◌, List, [], ◌∷◌, ◌++◌, OnOk, length, map};
ghost use Rattle.derivation.specs.Grammar.{Grammar};
ghost use Rattle.cfgtables.specs.Openings.{nth_production};
ghost use Rattle.cfgtables.specs.NumberedSymbols.{sym_of};
ghost use Rattle.cfgcosts.specs.Inner.Walk.{AreCountsOf};

use cfgindex::{PIdx, Storage, Symbol};
use cfgtables::{Productions, Tables};
use std::alloc::AllocError;

/// A way to open the productions that a source has.
pub(crate) trait Opener<S: Storage, X> {
    // The grammar.
    ghost grammar: { X → Grammar };

    // The productions with these numbers were opened, one after the other.
    ghost has_opened: { X → List ℕ → Type 0 };

    /// Opens a production, and adds its symbols after those that are pending.
    ///
    /// # Errors
    ///
    /// Out of memory: the production was opened all the same.
    fn open_onto(source: &mut X, p: PIdx<S>, pending: &mut Vec<Symbol<S>>) -> Result<(), AllocError>
        requires index { S.number p.0 < length (grammar source.old).productions }
        requires countable { (positions : List ℕ) × has_opened source.old positions × (length positions < 2 ^ 64 - 1) }
        ensures symbols { OnOk result (map (sym_of S.number) pending.new.items
            ≡ map (sym_of S.number) pending.old.items
            ++ (nth_production (grammar source.old) (S.number p.0)).symbols) }
        ensures grammar { grammar source.new ≡ grammar source.old }
        ensures opened { (positions : List ℕ) → has_opened source.old positions
            → has_opened source.new (positions ++ S.number p.0 ∷ []) };
}

/// Nothing is counted.
pub(crate) struct Uncounted;

impl<'a, S: Storage, T: Tables<S>> Opener<S, &'a T> for Uncounted {
    ghost grammar = { λ x. T.grammar x.now };

    ghost has_opened = { λ x positions. Unit {0} };

    fn open_onto(
        source: &mut &'a T,
        p: PIdx<S>,
        pending: &mut Vec<Symbol<S>>,
    ) -> Result<(), AllocError>
        requires { S.number p.0 < length (T.grammar source.old.now).productions }
        ensures symbols { OnOk result (map (sym_of S.number) pending.new.items
            ≡ map (sym_of S.number) pending.old.items
            ++ (nth_production (T.grammar source.old.now) (S.number p.0)).symbols) }
        ensures grammar { T.grammar source.new.now ≡ T.grammar source.old.now }
    {
        pending.extend_from_slice(source.prod(p))
    }
}

/// Each opening is counted.
pub(crate) struct Counted;

impl<S: Storage, P: Productions<S>> Opener<S, P> for Counted {
    ghost grammar = { λ x. P.content x };

    ghost has_opened = { λ x positions. AreCountsOf (P.content x) (P.opened x) (P.opened_all x) positions };

    fn open_onto(source: &mut P, p: PIdx<S>, pending: &mut Vec<Symbol<S>>) -> Result<(), AllocError>
        requires index { S.number p.0 < length (P.content source.old).productions }
        requires countable { (positions : List ℕ)
            × AreCountsOf (P.content source.old) (P.opened source.old) (P.opened_all source.old) positions
            × (length positions < 2 ^ 64 - 1) }
        ensures symbols { OnOk result (map (sym_of S.number) pending.new.items
            ≡ map (sym_of S.number) pending.old.items
            ++ (nth_production (P.content source.old) (S.number p.0)).symbols) }
        ensures grammar { P.content source.new ≡ P.content source.old }
        ensures opened { (positions : List ℕ)
            → AreCountsOf (P.content source.old) (P.opened source.old) (P.opened_all source.old) positions
            → AreCountsOf (P.content source.new) (P.opened source.new) (P.opened_all source.new)
            (positions ++ S.number p.0 ∷ []) }
    {
        pending.extend_from_slice(source.open(p))
    }
}
