//! What a grammar derives, and what that costs: the definitions of the textbook, the laws by which an analysis finds
//! what derivations show, and sums of costs where some rules have none.
//!
//! The definitions are in `specs`; the laws are the contracts of functions that do nothing.
#![tactic(auto)]

pub mod errors;

ghost use Rattle.std.specs.Prelude.{◌≡◌, ◌↔◌, ℕ, ◌+◌, ◌<◌, ◌≤◌, Bool, IsTrue, List, []};
ghost use Rattle.std.specs.Prelude.{◌∷◌, ◌++◌, Contains, map};
ghost use Rattle.derivation.specs.Grammar.{Grammar, HasProduction, Sym, Rule, Token};
ghost use Rattle.derivation.specs.Derivation.{Derives};
ghost use Rattle.derivation.specs.Concatenation.{DerivedInParts};
ghost use Rattle.derivation.specs.Tree.{Yields};
ghost use Rattle.derivation.specs.First.{First, Nullable};
ghost use Rattle.derivation.specs.FirstSets.{Begins, IsClosed, AreNullable};
ghost use Rattle.derivation.specs.Follow.{MayFollow};
ghost use Rattle.derivation.specs.FollowSets.{IsFollowClosed};
ghost use Rattle.derivation.specs.Sentence.{Sentence, cost_of};
ghost use Rattle.derivation.specs.Path.{Path, DerivesContaining};
ghost use Rattle.derivation.specs.Costs.{Least, Minimal, Greatest, Unbounded};
ghost use Rattle.derivation.specs.Cycles.{GrowingCycle, IsUseful};
ghost use Rattle.derivation.specs.UnitPaths.{UnitPath, DerivesRule};
ghost use Rattle.derivation.specs.Uses.{IsUsable};

pub use errors::CostError;

/// What a concatenation derives is what its parts derive, one after the other.
pub fn concatenations_derive_in_parts()
    ensures parts { (g : Grammar) (a b c : List Sym) → Derives (HasProduction g) (a ++ b) c
        → DerivedInParts (HasProduction g) a b c }
    ensures whole { (g : Grammar) (a b c d : List Sym) → Derives (HasProduction g) a c
        → Derives (HasProduction g) b d
        → Derives (HasProduction g) (a ++ b) (c ++ d) }
{}

/// What a list of symbols derives, it also derives between other symbols.
pub fn derivations_hold_inside()
    ensures { (g : Grammar) (before a b after : List Sym) → Derives (HasProduction g) a b
        → Derives (HasProduction g) (before ++ (a ++ after)) (before ++ (b ++ after)) }
{}

/// The tokens that a list of symbols derives are those that its parse trees yield.
pub fn trees_are_derivations()
    ensures { (g : Grammar) (a : List Sym) (w : List ℕ)
        → Derives (HasProduction g) a (map Token w) ↔ Yields (HasProduction g) a w }
{}

/// FIRST sets that are closed under the productions contain whatever derivations show.
pub fn closed_sets_hold_first()
    ensures empty { (g : Grammar) (empty : ℕ → Bool) (first : ℕ → ℕ → Bool)
        → IsClosed (HasProduction g) (λ r. IsTrue (empty r)) (λ r t. IsTrue (first r t))
        → (r : ℕ) → Nullable (HasProduction g) r → IsTrue (empty r) }
    ensures first { (g : Grammar) (empty : ℕ → Bool) (first : ℕ → ℕ → Bool)
        → IsClosed (HasProduction g) (λ r. IsTrue (empty r)) (λ r t. IsTrue (first r t))
        → (r t : ℕ) → First (HasProduction g) r t → IsTrue (first r t) }
{}

/// The FIRST sets that derivations show are closed under the productions, so they are the least closed ones.
pub fn first_is_closed()
    ensures { (g : Grammar) → IsClosed (HasProduction g) (Nullable (HasProduction g)) (First (HasProduction g)) }
{}

/// A list of symbols derives the empty list, or a list that begins with a token, exactly if the equations of FIRST say
/// so.
pub fn lists_begin_symbol_by_symbol()
    ensures nullable { (g : Grammar) (a : List Sym)
        → AreNullable (Nullable (HasProduction g)) a ↔ Derives (HasProduction g) a [] }
    ensures begins { (g : Grammar) (a : List Sym) (t : ℕ)
        → Begins (Nullable (HasProduction g)) (First (HasProduction g)) a t
        ↔ ((rest : List Sym) × Derives (HasProduction g) a (Token t ∷ rest)) }
{}

/// What closed FIRST sets say of a derived list, they also say of the list that derives it.
pub fn closed_sets_hold_before_derivations()
    ensures empty { (g : Grammar) (empty : ℕ → Bool) (first : ℕ → ℕ → Bool)
        → IsClosed (HasProduction g) (λ r. IsTrue (empty r)) (λ r t. IsTrue (first r t))
        → (a b : List Sym) → Derives (HasProduction g) a b
        → AreNullable (λ r. IsTrue (empty r)) b → AreNullable (λ r. IsTrue (empty r)) a }
    ensures first { (g : Grammar) (empty : ℕ → Bool) (first : ℕ → ℕ → Bool)
        → IsClosed (HasProduction g) (λ r. IsTrue (empty r)) (λ r t. IsTrue (first r t))
        → (a b : List Sym) (t : ℕ) → Derives (HasProduction g) a b
        → Begins (λ r. IsTrue (empty r)) (λ r t. IsTrue (first r t)) b t
        → Begins (λ r. IsTrue (empty r)) (λ r t. IsTrue (first r t)) a t }
{}

/// FOLLOW sets that are closed under the productions, with the end token for the start rule, contain whatever follows.
pub fn closed_sets_hold_follow()
    ensures { (g : Grammar) (empty : ℕ → Bool) (first follow : ℕ → ℕ → Bool)
        → IsClosed (HasProduction g) (λ r. IsTrue (empty r)) (λ r t. IsTrue (first r t))
        → IsFollowClosed (HasProduction g) (λ r. IsTrue (empty r)) (λ r t. IsTrue (first r t))
        (λ r t. IsTrue (follow r t))
        → ((t : ℕ) → t + 1 ≡ g.tokens → IsTrue (follow 0 t))
        → (r t : ℕ) → MayFollow g r t → IsTrue (follow r t) }
{}

/// The FOLLOW sets that derivations show are closed under the productions, and the end token follows the start rule.
pub fn follow_is_closed()
    ensures closed { (g : Grammar)
        → IsFollowClosed (HasProduction g) (Nullable (HasProduction g)) (First (HasProduction g)) (MayFollow g) }
    ensures end { (g : Grammar) (t : ℕ) → t + 1 ≡ g.tokens → MayFollow g 0 t }
{}

/// A rule has at most one least cost, and its sentences of that cost are its minimal sentences.
pub fn minimal_sentences_cost_the_least()
    ensures least { (g : Grammar) (cost : ℕ → ℕ) (r : ℕ) (w : List ℕ) → Minimal (HasProduction g) cost r w
        → Least (HasProduction g) cost r (cost_of cost w) }
    ensures minimal { (g : Grammar) (cost : ℕ → ℕ) (r c : ℕ) (w : List ℕ) → Least (HasProduction g) cost r c
        → Minimal (HasProduction g) cost r w ↔ (Sentence (HasProduction g) r w × (cost_of cost w ≡ c)) }
    ensures one { (g : Grammar) (cost : ℕ → ℕ) (r c d : ℕ) → Least (HasProduction g) cost r c
        → Least (HasProduction g) cost r d → c ≡ d }
{}

/// A rule with a greatest cost has no other and no least cost above it, and its costs aren't unbounded.
pub fn a_greatest_cost_bounds()
    ensures bounded { (g : Grammar) (cost : ℕ → ℕ) (r c : ℕ) → Greatest (HasProduction g) cost r c
        → Unbounded (HasProduction g) cost r → ⊥ }
    ensures one { (g : Grammar) (cost : ℕ → ℕ) (r c d : ℕ) → Greatest (HasProduction g) cost r c
        → Greatest (HasProduction g) cost r d → c ≡ d }
    ensures above { (g : Grammar) (cost : ℕ → ℕ) (r c d : ℕ) → Least (HasProduction g) cost r c
        → Greatest (HasProduction g) cost r d → c ≤ d }
{}

/// A rule has a path to another exactly if it derives, in one or more steps, a list that contains the other.
pub fn paths_are_derivations()
    ensures { (g : Grammar) (a b : ℕ) → Path (HasProduction g) a b ↔ DerivesContaining (HasProduction g) a b }
{}

/// A rule has a path of unit steps to another exactly if, in one or more steps, it derives the list of only that rule.
pub fn unit_paths_are_derivations()
    ensures { (g : Grammar) (a b : ℕ) → UnitPath (HasProduction g) a b ↔ DerivesRule (HasProduction g) a b }
{}

/// Some sentence of a rule uses a production of the rule exactly if each rule in the production is productive.
pub fn usable_productions_hold_sentences()
    ensures { (g : Grammar) (r : ℕ) (symbols : List Sym) → HasProduction g r symbols
        → IsUsable (HasProduction g) r symbols ↔ ((q : ℕ) → Contains symbols (Rule q)
        → (v : List ℕ) × Sentence (HasProduction g) q v) }
{}

/// If a rule with a growing cycle is useful for a rule, this has sentences that cost more than any given number.
pub fn growing_cycles_are_unbounded()
    ensures { (g : Grammar) (cost : ℕ → ℕ) (r x : ℕ) → IsUseful (HasProduction g) r x
        → GrowingCycle (HasProduction g) cost x → Unbounded (HasProduction g) cost r }
{}

/// If no sentence of a rule costs more than this one, its cost is the rule's greatest cost.
pub fn costliest_sentences_cost_the_greatest()
    ensures { (g : Grammar) (cost : ℕ → ℕ) (r : ℕ) (w : List ℕ) → Sentence (HasProduction g) r w
        → ((v : List ℕ) → Sentence (HasProduction g) r v → cost_of cost v ≤ cost_of cost w)
        → Greatest (HasProduction g) cost r (cost_of cost w) }
{}

/// Each rule in a list on the way to a sentence of a rule is useful for it. A rule that derives a list containing the
/// rule again has a growing cycle if the other symbols of that list derive tokens that cost something.
pub fn derivations_show_cycles()
    ensures useful { (g : Grammar) (r x : ℕ) (l : List Sym) (w : List ℕ)
        → Derives (HasProduction g) (Rule r ∷ []) l
        → Contains l (Rule x) → Derives (HasProduction g) l (map Token w) → IsUseful (HasProduction g) r x }
    ensures grows { (g : Grammar) (cost : ℕ → ℕ) (x : ℕ) (w : List ℕ) (l : DerivesContaining (HasProduction g) x x)
        → Derives (HasProduction g) (l.before ++ l.after) (map Token w) → 0 < cost_of cost w
        → GrowingCycle (HasProduction g) cost x }
{}
