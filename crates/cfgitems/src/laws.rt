//! What `==`, `clone` and `hash` of the tree's types compare, copy and feed. They are derived, so each law names the
//! impl, as in `⟦<Symbol as PartialEq>⟧`, and holds for every value.

ghost use Rattle.std.specs.Prelude.{◌≡◌, ◌↔◌, IsTrue};
ghost use Rattle.cfgitems.specs.SyntaxView.{symbol_view, production_view, rule_view, unique_view};
ghost use Rattle.cfgitems.specs.declared.symbol.Symbol.{Symbol};
ghost use Rattle.cfgitems.specs.declared.production.Production.{Production};
ghost use Rattle.cfgitems.specs.declared.rule.Rule.{Rule};
ghost use Rattle.cfgitems.specs.declared.precedence.AssocKind.{AssocKind};
ghost use Rattle.cfgitems.specs.declared.precedence.Precedence.{Precedence};
ghost use Rattle.cfgitems.specs.declared.occurrence.Unique.{Unique};
ghost use Rattle.cfgitems.specs.declared.occurrence.UniqueKind.{UniqueKind};
ghost use Rattle.cfgitems.specs.declared.item.RuleHead.{RuleHead};
ghost use Rattle.cfgitems.specs.declared.item.Body.{Body};

use crate::item::{Body, RuleHead};
use crate::occurrence::{Unique, UniqueKind};
use crate::precedence::{AssocKind, Precedence};
use crate::production::Production;
use crate::rule::Rule;
use crate::symbol::Symbol;
use std::hash::Hash;

/// Symbols are equal exactly if they show the same: rules or tokens of the same name, with the same span.
pub fn symbols_are_what_they_show()
    ensures { (a b : Symbol) → IsTrue (⟦<Symbol as PartialEq>⟧.eq a b) ↔ (symbol_view a ≡ symbol_view b) }
{}

/// Productions are equal exactly if they show the same.
pub fn productions_are_what_they_show()
    ensures { (a b : Production) → IsTrue (⟦<Production as PartialEq>⟧.eq a b)
        ↔ (production_view a ≡ production_view b) }
{}

/// Rules are equal exactly if they show the same.
pub fn rules_are_what_they_show()
    ensures { (a b : Rule) → IsTrue (⟦<Rule as PartialEq>⟧.eq a b) ↔ (rule_view a ≡ rule_view b) }
{}

/// Precedences are equal exactly if their levels and kinds are, and kinds exactly if they are the same. A clone equals
/// its source and allocates nothing.
pub fn precedences_are_what_they_are()
    ensures precedences { (a b : Precedence) → IsTrue (⟦<Precedence as PartialEq>⟧.eq a b) ↔ (a ≡ b) }
    ensures kinds { (a b : AssocKind) → IsTrue (⟦<AssocKind as PartialEq>⟧.eq a b) ↔ (a ≡ b) }
    ensures clone { (a b : Precedence) → ⟦<Precedence as Clone>⟧.is_clone a b → b ≡ a }
    ensures cloned { (a : Precedence) → ⟦<Precedence as Clone>⟧.is_infallible a }
    ensures kind_clone { (a b : AssocKind) → ⟦<AssocKind as Clone>⟧.is_clone a b → b ≡ a }
    ensures kind_cloned { (a : AssocKind) → ⟦<AssocKind as Clone>⟧.is_infallible a }
{}

/// Declarations that a file may have only once are equal exactly if they show the same: the same kind, for the token of
/// the same name or for the whole grammar. Equal ones feed a hash the same.
pub fn unique_are_what_they_show()
    ensures equal { (a b : Unique) → IsTrue (⟦<Unique as PartialEq>⟧.eq a b) ↔ (unique_view a ≡ unique_view b) }
    ensures hash { (a b : Unique) → unique_view a ≡ unique_view b
        → ⟦<Unique as Hash>⟧.hash_input a ≡ ⟦<Unique as Hash>⟧.hash_input b }
{}

/// Kinds of such declarations are equal exactly if they are the same, and feed a hash the same exactly then. A clone
/// equals its source and allocates nothing.
pub fn unique_kinds_are_distinct()
    ensures equal { (a b : UniqueKind) → IsTrue (⟦<UniqueKind as PartialEq>⟧.eq a b) ↔ (a ≡ b) }
    ensures clone { (a b : UniqueKind) → ⟦<UniqueKind as Clone>⟧.is_clone a b → b ≡ a }
    ensures cloned { (a : UniqueKind) → ⟦<UniqueKind as Clone>⟧.is_infallible a }
    ensures hash { (a b : UniqueKind) → (⟦<UniqueKind as Hash>⟧.hash_input a ≡ ⟦<UniqueKind as Hash>⟧.hash_input b)
        ↔ (a ≡ b) }
{}

/// A clone of what precedes a rule's colon equals its source and allocates nothing.
pub fn rule_heads_are_cloned<'a>()
    ensures clone { (a b : RuleHead) → ⟦<RuleHead<'a> as Clone>⟧.is_clone a b → b ≡ a }
    ensures cloned { (a : RuleHead) → ⟦<RuleHead<'a> as Clone>⟧.is_infallible a }
{}

/// A clone of a production as it is read equals its source and allocates nothing.
pub fn bodies_are_cloned<'t, 'a>()
    ensures clone { (a b : Body) → ⟦<Body<'t, 'a> as Clone>⟧.is_clone a b → b ≡ a }
    ensures cloned { (a : Body) → ⟦<Body<'t, 'a> as Clone>⟧.is_infallible a }
{}
