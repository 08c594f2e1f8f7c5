//! What `==` and `clone` of reports compare and copy. They are derived, so each law names the impl, as in
//! `⟦<LexReport<S> as PartialEq>⟧`, and holds for every value.

ghost use Rattle.std.specs.Prelude.{◌≡◌, ◌↔◌, IsTrue};
ghost use Rattle.std.specs.List.{AllZip};
ghost use Rattle.lexcheck.specs.declared.report.LexReport.{LexReport};

use super::report::LexReport;
use cfgrammar::Storage;
use cfgrammar::laws::tokens_are_their_numbers;

/// Reports are equal exactly if they have the same indices of names and the same tokens. A clone has the indices of its
/// source, and clones of its tokens, in order.
pub fn reports_are_what_they_hold<S: Storage>()
    ensures equal { (a b : LexReport S) → IsTrue (⟦<LexReport<S> as PartialEq>⟧.eq a b)
        ↔ ((a.unknown.items ≡ b.unknown.items) × (a.missing.items ≡ b.missing.items)) }
    ensures unknown { (a b : LexReport S) → ⟦<LexReport<S> as Clone>⟧.is_clone a b
        → b.unknown.items ≡ a.unknown.items }
    ensures missing { (a b : LexReport S) → ⟦<LexReport<S> as Clone>⟧.is_clone a b
        → AllZip (λ x y. S.is_clone x.0 y.0) a.missing.items b.missing.items }
{
    tokens_are_their_numbers::<S>();
}
