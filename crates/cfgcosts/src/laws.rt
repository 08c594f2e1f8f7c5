//! Laws of least costs, which are true of every grammar, and of the errors where there are none.

ghost use Rattle.std.specs.Prelude.{◌≡◌, ◌↔◌, ℕ, ◌<◌, ◌≤◌, [], ◌++◌, List, Option, Some, All, EachIndex};
ghost use Rattle.std.specs.Prelude.{IfSome, IsTrue};
ghost use Rattle.std.specs.Prelude.{length, slice_index};
ghost use Rattle.std.specs.declared.cmp.Ordering.TheVariants.{Greater};
ghost use Rattle.derivation.specs.Grammar.{Grammar, IsGrammar, HasProduction, Sym};
ghost use Rattle.derivation.specs.Sentence.{Sentence, cost_of};
ghost use Rattle.derivation.specs.Costs.{Least, Minimal};
ghost use Rattle.derivation.specs.CostLists.{rule_cost};
ghost use Rattle.cfgleast.specs.Certificate.{IsCovered, IsReached};
ghost use Rattle.cfgchoices.specs.Chains.{IsMadeByBase};
ghost use Rattle.cfgchoices.specs.FirstSentence.{FirstMinimal, lexicographic};
ghost use Rattle.cfgchoices.specs.Splits.{Split};
ghost use Rattle.cfgcosts.specs.declared.errors.SentenceError.{SentenceError};

use crate::errors::SentenceError;

/// Lists of costs up to 65535 and of choices that pass both checks show least costs, wherever they come from.
pub fn certificates_show_least()
    ensures { (g : Grammar) (costs : List ℕ) (least : List (Option ℕ)) (choices : List (Option (ℕ × ℕ)))
        → All (IsCovered costs least) g.productions → EachIndex least (IsReached g costs least choices)
        → All (λ o. IfSome o (λ c. c ≤ 65535)) least
        → (r c : ℕ) → rule_cost least r ≡ Some c → Least (HasProduction g) (slice_index costs) r c }
{}

/// If each token costs at least 1, a sentence has at most as many tokens as it costs.
pub fn sentences_cost_their_length()
    ensures { (g : Grammar) (costs : List ℕ) → IsGrammar g → length costs ≡ g.tokens → All (λ c. 0 < c) costs
        → (r : ℕ) (w : List ℕ) → Sentence (HasProduction g) r w → length w ≤ cost_of (slice_index costs) w }
{}

/// The minimal sentences of a rule are exactly the words that base productions make of minimal sentences of their
/// symbols: base productions of the rule, or of a rule that chain productions lead to from it.
pub fn minimal_sentences_follow_chains()
    ensures { (g : Grammar) (costs : List ℕ) → IsGrammar g → length costs ≡ g.tokens → All (λ c. 0 < c) costs
        → (r : ℕ) (w : List ℕ) → Minimal (HasProduction g) (slice_index costs) r w
        ↔ IsMadeByBase (HasProduction g) (slice_index costs) r w }
{}

/// No minimal sentence of a rule is a prefix of another.
pub fn no_minimal_sentence_begins_another()
    ensures { (g : Grammar) (costs : List ℕ) → IsGrammar g → length costs ≡ g.tokens → All (λ c. 0 < c) costs
        → (r : ℕ) (w rest : List ℕ) → Minimal (HasProduction g) (slice_index costs) r w
        → Minimal (HasProduction g) (slice_index costs) r (w ++ rest) → rest ≡ [] }
{}

/// The first minimal sentences of a list's symbols, one after the other, come first among all that their minimal
/// sentences make.
pub fn first_sentences_make_the_first()
    ensures { (g : Grammar) (costs : List ℕ) → IsGrammar g → length costs ≡ g.tokens → All (λ c. 0 < c) costs
        → (sequence : List Sym) (w v : List ℕ) → Split (FirstMinimal (HasProduction g) (slice_index costs)) sequence w
        → Split (Minimal (HasProduction g) (slice_index costs)) sequence v → lexicographic w v ≡ Greater → ⊥ }
{}

/// A sentence error equals only itself. A clone equals its source, and allocates nothing.
pub fn sentence_errors_are_distinct()
    ensures equal { (a b : SentenceError) → IsTrue (⟦<SentenceError as PartialEq>⟧.eq a b) ↔ (a ≡ b) }
    ensures clone { (a b : SentenceError) → ⟦<SentenceError as Clone>⟧.is_clone a b → b ≡ a }
    ensures cloned { (a : SentenceError) → ⟦<SentenceError as Clone>⟧.is_infallible a }
{}
