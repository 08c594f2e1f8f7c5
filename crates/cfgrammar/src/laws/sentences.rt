//! Laws of derivations and sentences, and of what lists contain.

ghost use Rattle.std.specs.Prelude.{◌≡◌, ◌↔◌, ◌⊎◌, ℕ, ◌<◌, ◌≤◌, List, [], ◌∷◌, All, Contains};
ghost use Rattle.std.specs.Prelude.{length, slice_index};
ghost use Rattle.derivation.specs.Costs.{Least};
ghost use Rattle.derivation.specs.Derivation.{Derives};
ghost use Rattle.derivation.specs.First.{First, Nullable};
ghost use Rattle.derivation.specs.Grammar.{Grammar, HasProduction, IsGrammar, Production, Sym};
ghost use Rattle.derivation.specs.Path.{Path};
ghost use Rattle.derivation.specs.Productive.{Productive};
ghost use Rattle.derivation.specs.Sentence.{Sentence, cost_of};

/// Derivations are transitive: what a list derives also derives for it.
pub fn derivations_are_transitive()
    ensures { (g : Grammar) (a b c : List Sym) → Derives (HasProduction g) a b → Derives (HasProduction g) b c
        → Derives (HasProduction g) a c }
{}

/// The nullable rules are those with the empty sentence.
pub fn nullable_rules_have_the_empty_sentence()
    ensures { (g : Grammar) (r : ℕ) → Sentence (HasProduction g) r [] ↔ Nullable (HasProduction g) r }
{}

/// If each rule that a rule leads to is productive, FIRST of the rule is the tokens that its sentences begin with.
pub fn first_tokens_begin_sentences()
    ensures { (g : Grammar) (r t : ℕ) → ((q : ℕ) → Path (HasProduction g) r q → Productive (HasProduction g) q)
        → First (HasProduction g) r t ↔ ((w : List ℕ) × Sentence (HasProduction g) r (t ∷ w)) }
{}

/// If each token costs at least 1, the nullable rules are those whose least cost is 0.
pub fn nullable_rules_cost_nothing()
    ensures { (g : Grammar) (costs : List ℕ) → IsGrammar g → length costs ≡ g.tokens → All (λ c. 0 < c) costs
        → (r : ℕ) → Least (HasProduction g) (slice_index costs) r 0 ↔ Nullable (HasProduction g) r }
{}

/// If each token costs 1, a sentence costs its length, and the least cost of a rule is the length of its shortest
/// sentences.
pub fn least_costs_are_shortest_lengths()
    ensures length { (g : Grammar) (costs : List ℕ) → IsGrammar g → length costs ≡ g.tokens → All (λ c. c ≡ 1) costs
        → (r : ℕ) (w : List ℕ) → Sentence (HasProduction g) r w → cost_of (slice_index costs) w ≡ length w }
    ensures least { (g : Grammar) (costs : List ℕ) → IsGrammar g → length costs ≡ g.tokens → All (λ c. c ≡ 1) costs
        → (r c : ℕ) → Least (HasProduction g) (slice_index costs) r c
        ↔ (((w : List ℕ) × Sentence (HasProduction g) r w × (length w ≡ c))
        × ((w : List ℕ) → Sentence (HasProduction g) r w → c ≤ length w)) }
{}

/// A list contains its first element and what the rest of it contains, and nothing else.
pub fn lists_contain_their_elements()
    ensures numbers { (x y : ℕ) (l : List ℕ) → Contains (x ∷ l) y ↔ ((x ≡ y) ⊎ Contains l y) }
    ensures symbols { (x y : Sym) (l : List Sym) → Contains (x ∷ l) y ↔ ((x ≡ y) ⊎ Contains l y) }
    ensures productions { (x y : Production) (l : List Production) → Contains (x ∷ l) y ↔ ((x ≡ y) ⊎ Contains l y) }
{}
