//! The greatest cost of each rule's sentences.

ghost use Rattle.std.specs.Prelude.{◌≡◌, ℕ, ◌<◌, ◌≤◌, All, Contains, IfOk, length, slice_index, slice_index_or};
ghost use Rattle.std.specs.Prelude.{Err};
ghost use Rattle.cfggreatest.specs.GreatestCosts.{AreGreatestCosts};

use crate::rule_edges::RuleEdges;
use crate::sums::Group;
use cfganalysis::productive_rules;
use cfgindex::Storage;
use cfgtables::Tables;
use derivation::CostError;
use search::Components;
use std::alloc::{AllocError, Global};
use std::marker::PhantomData;

/// For each rule the greatest cost of its sentences, where a sentence costs the sum of what its tokens cost. It is
/// `None` if for every number some sentence costs more, and an error if the rule is unproductive, or if its greatest
/// cost is more than 65535.
///
/// A cyclic rule may still have a greatest cost: costs are unbounded exactly if the rule reaches a growing cycle, that
/// is, a rule x that derives u x v in one or more steps, where u and v derive tokens that cost something.
///
/// # Errors
///
/// Out of memory.
pub fn greatest_costs<S: Storage, T: Tables<S>>(
    alloc: Global,
    grm: &T,
    costs: &[u8],
) -> Result<Vec<Result<Option<u16>, CostError>>, AllocError>
    requires costs { length costs.now ≡ (T.grammar grm.now).tokens }
    requires positive { All (λ c. 1 ≤ c) costs.now }
    ensures { IfOk result (λ x. AreGreatestCosts (T.grammar grm.now) (slice_index costs.now) x.items) }
{
    let productive = productive_rules(alloc, grm)?;
    let rules_len = grm.rules_len().0.to_usize();
    let edges = RuleEdges {
        tables: grm,
        productive: &productive,
        storage: PhantomData,
    };
    let groups = Components::of(alloc, &edges, rules_len)?;
    let mut results = vec![in alloc; Err(CostError::NoSentence); rules_len]?;
    for number in 0..groups.members.len() {
        let rules = groups.members.of(number);
        let group = Group {
            productive: &productive,
            costs,
            numbers: &groups.numbers,
            number,
            results: &results,
        };
        let result = group.result(grm, rules);
        set_results(&mut results, rules, result);
    }
    Ok(results)
}

/// Sets the results of these rules.
fn set_results(
    results: &mut Vec<Result<Option<u16>, CostError>>,
    rules: &[usize],
    value: Result<Option<u16>, CostError>,
)
    requires { (r : ℕ) → Contains rules.now r → r < length results.old.items }
    ensures len { length results.new.items ≡ length results.old.items }
    ensures set { (r : ℕ) → Contains rules.now r
        → slice_index_or results.new.items r (Err CostError.NoSentence) ≡ value }
    ensures rest { (r : ℕ) → (Contains rules.now r → ⊥) → slice_index_or results.new.items r (Err CostError.NoSentence)
        ≡ slice_index_or results.old.items r (Err CostError.NoSentence) }
{
    for rule in rules {
        results[*rule] = value;
    }
}
