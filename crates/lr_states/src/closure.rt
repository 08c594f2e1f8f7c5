//! The items of a state by those with symbols read.

ghost use Rattle.std.specs.Prelude.{◌≡◌, ◌↔◌, ◌<◌, ◌++◌, ℕ, [], Contains, IfOk, IsTrue, OnOk, false, length, map};
ghost use Rattle.std.specs.BTreeSet.{IsOrdered};
ghost use Rattle.std.specs.Ordering.{nat_cmp};
ghost use Rattle.cfgrammar.specs.Grammar.{Rule};
ghost use Rattle.cfgrammar.specs.Numbered.{core};
ghost use Rattle.cfgrammar.specs.Openings.{nth_production};
ghost use Rattle.search.specs.Reachable.{Reaches};
ghost use Rattle.lr_states.specs.Inner.Closure.{AddsTo, Begins, Enters, IsClosure, IsEntered, IsIn, IsOn, IsSeed};
ghost use Rattle.lr_states.specs.Viable.{HasNext, IsUsed, IsViable, item_at};
ghost use Rattle.lr_states.specs.declared.Item.{Item};

use crate::Item;
use crate::tables::{next_symbol, productions_of};
use cfgrammar::yacc::YaccGrammar;
use cfgrammar::{Symbol, Vob};
use search::Search;
use std::alloc::{AllocError, Global};
use std::collections::BTreeSet;

/// A grammar, and a bit for each production, which says whether it is used.
#[derive(Drop)]
pub(crate) struct Used<'a> {
    pub(crate) grammar: &'a YaccGrammar<u32>,
    pub(crate) bits: Vob,
}

impl<'a> Used<'a> {
    /// Adds a production if it is used, and reaches the rule that it begins with.
    fn enter(
        &self,
        search: &mut Search,
        entered: &mut BTreeSet<usize>,
        production: usize,
    ) -> Result<(), AllocError>
        requires within { production < length self.now.grammar.now.productions }
        requires nodes { length search.old.reachable ≡ length self.now.grammar.now.rules }
        ensures reaches { OnOk result (Reaches (Begins (core self.now.grammar.now) (IsOn self.now.bits) production)
            search.old search.new) }
        ensures adds { OnOk result (AddsTo (λ p. (p ≡ production) × IsOn self.now.bits p)
            entered.old entered.new) }
    {
        if !self.bits.get(production).unwrap_or(false) {
            return Ok(());
        }
        entered.insert(production)?;
        let item = Item {
            production,
            read: 0,
        };
        reach_next(self.grammar, search, item)
    }

    /// Adds the used productions of a rule, and reaches the rules that they begin with.
    fn enter_rule(
        &self,
        search: &mut Search,
        entered: &mut BTreeSet<usize>,
        rule: usize,
    ) -> Result<(), AllocError>
        requires used { (p : ℕ) → IsOn self.now.bits p ↔ IsUsed (core self.now.grammar.now) p }
        requires rule { rule < length self.now.grammar.now.rules }
        requires nodes { length search.old.reachable ≡ length self.now.grammar.now.rules }
        ensures reaches { OnOk result (Reaches (Enters (core self.now.grammar.now) (IsOn self.now.bits) rule)
            search.old search.new) }
        ensures adds { OnOk result (AddsTo (λ p. ((nth_production (core self.now.grammar.now) p).rule ≡ rule)
            × IsOn self.now.bits p) entered.old entered.new) }
    {
        for production in productions_of(self.grammar, rule) {
            self.enter(search, entered, usize::from(*production))?;
        }
        Ok(())
    }

    /// The used productions that a state with these items has with nothing read.
    fn entered(&self, alloc: Global, kernel: &[Item]) -> Result<BTreeSet<usize>, AllocError>
        requires used { (p : ℕ) → IsOn self.now.bits p ↔ IsUsed (core self.now.grammar.now) p }
        requires within { (item : Item) → Contains kernel.now item
            → item.production < length self.now.grammar.now.productions }
        ensures { IfOk result (λ entered. (p : ℕ) → IsIn entered p
            ↔ IsEntered (core self.now.grammar.now) (IsUsed (core self.now.grammar.now)) kernel.now (item_at p 0)) }
    {
        let mut entered = BTreeSet::new(alloc);
        let mut search = Search::through(alloc, usize::from(self.grammar.rules_len()))?;
        reach_seeds(self.grammar, &mut search, kernel)?;
        while let Some(rule) = search.next() {
            self.enter_rule(&mut search, &mut entered, rule)?;
        }
        Ok(entered)
    }

    /// All items of a state, by those that have symbols read. Those come first, and then used productions in order.
    pub(crate) fn closure(&self, alloc: Global, kernel: &[Item]) -> Result<Vec<Item>, AllocError>
        requires used { (p : ℕ) → IsOn self.now.bits p ↔ IsUsed (core self.now.grammar.now) p }
        requires within { (item : Item) → Contains kernel.now item
            → item.production < length self.now.grammar.now.productions }
        ensures { IfOk result (λ items. IsClosure (core self.now.grammar.now) (IsUsed (core self.now.grammar.now))
            kernel.now items.items) }
    {
        let mut items = kernel.to_vec(alloc)?;
        // Most states have none, and a search has a bit for each rule.
        if has_seed(self.grammar, kernel) {
            let entered = self.entered(alloc, kernel)?;
            push_unread(&entered, &mut items)?;
        }
        Ok(items)
    }

    /// Whether the empty prefix is viable.
    pub(crate) fn is_viable(&self, alloc: Global) -> Result<bool, AllocError>
        requires { (p : ℕ) → IsOn self.now.bits p ↔ IsUsed (core self.now.grammar.now) p }
        ensures { IfOk result (λ viable. IsTrue viable
            ↔ IsViable (core self.now.grammar.now) (IsUsed (core self.now.grammar.now)) []) }
    {
        let none = Vec::new(alloc);
        Ok(!self.closure(alloc, &none)?.is_empty())
    }
}

/// Pushes the productions in ascending order, with nothing read.
fn push_unread(productions: &BTreeSet<usize>, items: &mut Vec<Item>) -> Result<(), AllocError>
    ensures items { OnOk result (items.new.items
        ≡ items.old.items ++ map (λ p. item_at p 0) productions.now.keys) }
    ensures ascending { OnOk result (IsOrdered nat_cmp productions.now) }
{
    items.extend(
        productions.iter().map(|production| Item {
            production: *production,
            read: 0,
        }),
    )
}

/// Reaches the rule that is the item's next symbol, if that is one.
fn reach_next(grammar: &YaccGrammar<u32>, search: &mut Search, item: Item) -> Result<(), AllocError>
    requires within { item.production < length grammar.now.productions }
    requires nodes { length search.old.reachable ≡ length grammar.now.rules }
    ensures { OnOk result (Reaches (λ r. HasNext (core grammar.now) item (Rule r)) search.old search.new) }
{
    grammar.invariant_holds();
    match next_symbol(grammar, item) {
        Some(Symbol::Rule(rule)) => search.reach(usize::from(rule)),
        _ => Ok(()),
    }
}

/// Whether a rule is next in one of the items, or there are none.
fn has_seed(grammar: &YaccGrammar<u32>, kernel: &[Item]) -> bool
    requires { (item : Item) → Contains kernel.now item → item.production < length grammar.now.productions }
    ensures { (result ≡ false) → (rule : ℕ) → IsSeed (core grammar.now) kernel.now rule → ⊥ }
{
    if kernel.is_empty() {
        return true;
    }
    for item in kernel {
        if let Some(Symbol::Rule(_)) = next_symbol(grammar, *item) {
            return true;
        }
    }
    false
}

/// Reaches the rules that are next in the items; if there are none, the start rule.
fn reach_seeds(
    grammar: &YaccGrammar<u32>,
    search: &mut Search,
    kernel: &[Item],
) -> Result<(), AllocError>
    requires within { (item : Item) → Contains kernel.now item → item.production < length grammar.now.productions }
    requires nodes { length search.old.reachable ≡ length grammar.now.rules }
    ensures { OnOk result (Reaches (IsSeed (core grammar.now) kernel.now) search.old search.new) }
{
    if kernel.is_empty() {
        return search.reach(usize::from(grammar.start_rule_idx()));
    }
    for item in kernel {
        reach_next(grammar, search, *item)?;
    }
    Ok(())
}
