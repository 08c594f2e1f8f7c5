//! A law of the tree of a file.

ghost use Rattle.std.specs.Prelude.{◌≡◌, ℕ, false, List, [], ◌∷◌, All, Option, codes};
ghost use Rattle.cfgitems.specs.Building.{has_name};
ghost use Rattle.cfgitems.specs.Syntax.{syntax_of};
ghost use Rattle.bison_reader.specs.Sorts.{items_in, words_in};
ghost use Rattle.bison_tree.specs.Tree.{tree_items};

/// In the tree of any text, no rule has a name that a numbering of rules may add: `^`, `~` or `^~`.
#[tactic(auto, using(crate::proofs::RuleNames::rule_names_free))]
pub fn rule_names_are_free()
    ensures { (text : List ℕ) → (programs : Option (List ℕ))
        → All (λ rule. has_name rule.0 (codes "^" ∷ codes "~" ∷ codes "^~" ∷ []) ≡ false)
        (syntax_of (tree_items (words_in text) (items_in text) programs)).rules }
{}
