//! Laws of greatest costs, which are true of every grammar.

ghost use Rattle.std.specs.Prelude.{◌↔◌, ℕ, ◌≤◌, Bool, List, IsTrue};
ghost use Rattle.derivation.specs.Grammar.{Grammar, IsGrammar, HasProduction};
ghost use Rattle.derivation.specs.Sentence.{Sentence, cost_of};
ghost use Rattle.derivation.specs.Costs.{Greatest, Unbounded};
ghost use Rattle.derivation.specs.Cycles.{ReachesGrowingCycle};
ghost use Rattle.cfggreatest.specs.Growth.{GrowsFromSet};

/// In a set of productive rules that each grow from a rule of the set, all costs are unbounded.
pub fn sets_that_grow_are_unbounded()
    ensures { (g : Grammar) (cost : ℕ → ℕ) (set : ℕ → Bool)
        → ((r : ℕ) → IsTrue (set r) → GrowsFromSet (HasProduction g) cost set r)
        → (r : ℕ) → IsTrue (set r) → Unbounded (HasProduction g) cost r }
{}

/// A productive rule whose sentences all cost at most some number has a greatest cost.
pub fn bounded_rules_have_a_greatest_cost()
    ensures { (g : Grammar) (cost : ℕ → ℕ) (r n : ℕ) (w : List ℕ) → IsGrammar g
        → ((v : List ℕ) → Sentence (HasProduction g) r v → cost_of cost v ≤ n)
        → Sentence (HasProduction g) r w → (c : ℕ) × Greatest (HasProduction g) cost r c }
{}

/// A rule's costs are unbounded exactly if it reaches a growing cycle.
pub fn unbounded_rules_reach_growing_cycles()
    ensures { (g : Grammar) (cost : ℕ → ℕ) (r : ℕ) → IsGrammar g
        → Unbounded (HasProduction g) cost r ↔ ReachesGrowingCycle (HasProduction g) cost r }
{}
