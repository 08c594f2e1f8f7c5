//! A certificate of least costs, and its checks.

ghost use Rattle.std.specs.Prelude.{◌≡◌, ◌↔◌, ℕ, ◌<◌, ◌≤◌, List, All, EachIndex, IfSome};
ghost use Rattle.std.specs.Prelude.{IsTrue, MatchOption, Some, None, length, map, min, option_map, slice_index};
ghost use Rattle.std.specs.Prelude.{slice_index_or};
ghost use Rattle.derivation.specs.Grammar.{IsGrammar, HasProduction};
ghost use Rattle.derivation.specs.Sentence.{Sentence, HasSentenceOf, cost_of};
ghost use Rattle.cfgtables.specs.Openings.{nth_production};
ghost use Rattle.cfgtables.specs.NumberedSymbols.{sym_of};
ghost use Rattle.derivation.specs.CostLists.{IsListed, rule_cost, sum_by_lists};
ghost use Rattle.cfgleast.specs.Certificate.{IsChosenBelow, IsCovered, IsReached, IsShown, claim_of, choice_of};
ghost use Rattle.cfgleast.specs.Certificate.{rule_choice};
ghost use Rattle.derivation.specs.Sums.{symbol_cost};

use cfgindex::{PIdx, RIdx, Storage, Symbol, to_storage};
use cfgleast::walk::TOO_LARGE;
use cfgtables::Tables;

/// The cost of a rule in the list.
fn least_cost(least: &[Option<u16>], rule: usize) -> Option<u16>
    requires { rule < length least.now }
    ensures { result ≡ rule_cost least.now rule }
{
    least[rule]
}

/// What a symbol costs, by the costs of tokens and of rules.
fn cost_of_symbol<S: Storage>(costs: &[u8], least: &[Option<u16>], symbol: Symbol<S>) -> Option<u16>
    requires { IsListed (length least.now) (length costs.now) (sym_of S.number symbol) }
    ensures { result ≡ symbol_cost (slice_index costs.now) (rule_cost least.now) (sym_of S.number symbol) }
{
    match symbol {
        Symbol::Rule(rule) => least_cost(least, usize::from(rule)),
        Symbol::Token(token) => Some(u16::from(costs[usize::from(token)])),
    }
}

/// What the symbols cost in total, if each has a cost, cut down to `TOO_LARGE`.
fn cut_sum<S: Storage>(costs: &[u8], least: &[Option<u16>], symbols: &[Symbol<S>]) -> Option<u32>
    requires { All (IsListed (length least.now) (length costs.now)) (map (sym_of S.number) symbols.now) }
    ensures { result
        ≡ option_map (λ n. min n 65536) (sum_by_lists costs.now least.now (map (sym_of S.number) symbols.now)) }
{
    let mut sum = 0;
    for symbol in symbols {
        let cost = cost_of_symbol(costs, least, *symbol)?;
        sum = TOO_LARGE.min(sum + u32::from(cost));
    }
    Some(sum)
}

/// Whether the production's sum is more than 65535, or its rule costs at most the sum, if the rules in it all have a
/// cost.
fn is_covered<S: Storage>(
    costs: &[u8],
    least: &[Option<u16>],
    rule: RIdx<S>,
    symbols: &[Symbol<S>],
) -> bool
    requires rule { S.number rule.0 < length least.now }
    requires symbols { All (IsListed (length least.now) (length costs.now)) (map (sym_of S.number) symbols.now) }
    ensures exact { IsTrue result
        ↔ IsCovered costs.now least.now
        (record { rule = S.number rule.0; symbols = map (sym_of S.number) symbols.now }) }
    ensures range { IfSome (rule_cost least.now (S.number rule.0)) (λ c. c ≤ 65535) }
{
    match (
        cut_sum(costs, least, symbols),
        least_cost(least, usize::from(rule)),
    ) {
        (None, _) => true,
        (Some(sum), Some(cost)) => u32::from(cost) <= sum,
        (Some(sum), None) => sum == TOO_LARGE,
    }
}

/// Whether no sentence costs less than `least` says for its rule, as each production shows.
///
/// `costs` has the cost of each token, and `least` a cost for each rule, or `None` if no sentence of the rule costs
/// 65535 or less. The result is true exactly if for each production whose rules all have a cost, the sum of its
/// symbols' costs is more than 65535, or its rule has a cost of at most that sum.
pub fn check_least<S: Storage, T: Tables<S>>(grm: &T, costs: &[u8], least: &[Option<u16>]) -> bool
    requires costs { length costs.now ≡ (T.grammar grm.now).tokens }
    requires least { length least.now ≡ (T.grammar grm.now).rules }
    ensures exact { IsTrue result ↔ All (IsCovered costs.now least.now) (T.grammar grm.now).productions }
    ensures bound { IsTrue result → (r : ℕ) (w : List ℕ) → Sentence (HasProduction (T.grammar grm.now)) r w
        → MatchOption (rule_cost least.now r)
        (65535 < cost_of (slice_index costs.now) w)
        (λ c. c ≤ cost_of (slice_index costs.now) w) }
{
    prove_eq!(least.len(), usize::from(grm.rules_len()));
    let prods_len = grm.prods_len().0.to_usize();
    for number in 0..prods_len {
        let p = PIdx(to_storage(number));
        if !is_covered(costs, least, grm.prod_to_rule(p), grm.prod(p)) {
            return false;
        }
    }
    true
}

/// The choice of a rule in the list.
fn choice_at<S: Storage>(choices: &[Option<(PIdx<S>, u32)>], rule: usize) -> Option<(PIdx<S>, u32)>
    requires { rule < length choices.now }
    ensures { choice_of S.number result ≡ rule_choice (map (choice_of S.number) choices.now) rule }
{
    choices[rule]
}

/// Whether the symbol is a rule that has a choice with a number less than `number`, or a token, which needs none.
fn is_chosen_below<S: Storage>(
    choices: &[Option<(PIdx<S>, u32)>],
    symbol: Symbol<S>,
    number: u32,
) -> bool
    requires { (tokens : ℕ) × IsListed (length choices.now) tokens (sym_of S.number symbol) }
    ensures { IsTrue result ↔ IsChosenBelow (map (choice_of S.number) choices.now) number (sym_of S.number symbol) }
{
    match symbol {
        Symbol::Rule(rule) => {
            let chosen = choice_at(choices, usize::from(rule));
            chosen.is_some_and(|choice| choice.1 < number)
        }
        Symbol::Token(_) => true,
    }
}

/// Whether the rules among the symbols have choices with numbers less than `number`.
fn are_chosen_below<S: Storage>(
    choices: &[Option<(PIdx<S>, u32)>],
    symbols: &[Symbol<S>],
    number: u32,
) -> bool
    requires { (tokens : ℕ) × All (IsListed (length choices.now) tokens) (map (sym_of S.number) symbols.now) }
    ensures { IsTrue result
        ↔ All (IsChosenBelow (map (choice_of S.number) choices.now) number) (map (sym_of S.number) symbols.now) }
{
    for symbol in symbols {
        if !is_chosen_below(choices, *symbol, number) {
            return false;
        }
    }
    true
}

/// Whether `p` is a production of the rule.
fn is_production_of<S: Storage, T: Tables<S>>(grm: &T, rule: usize, p: PIdx<S>) -> bool
    ensures index { IsTrue result → S.number p.0 < length (T.grammar grm.now).productions }
    ensures owner { IsTrue result → (nth_production (T.grammar grm.now) (S.number p.0)).rule ≡ rule }
    ensures found { S.number p.0 < length (T.grammar grm.now).productions
        → (nth_production (T.grammar grm.now) (S.number p.0)).rule ≡ rule → IsTrue result }
{
    p.0.to_usize() < grm.prods_len().0.to_usize() && grm.prod_to_rule(p).0.to_usize() == rule
}

/// Whether the symbols cost exactly this in total.
fn costs_just<S: Storage>(
    costs: &[u8],
    least: &[Option<u16>],
    symbols: &[Symbol<S>],
    cost: u16,
) -> bool
    requires { All (IsListed (length least.now) (length costs.now)) (map (sym_of S.number) symbols.now) }
    ensures { IsTrue result ↔ (sum_by_lists costs.now least.now (map (sym_of S.number) symbols.now) ≡ Some cost) }
{
    match cut_sum(costs, least, symbols) {
        Some(sum) => sum == u32::from(cost),
        None => false,
    }
}

/// Whether the rule has a choice that shows its cost, if it has a cost.
fn is_reached<S: Storage, T: Tables<S>>(
    grm: &T,
    costs: &[u8],
    least: &[Option<u16>],
    choices: &[Option<(PIdx<S>, u32)>],
    rule: usize,
) -> bool
    requires costs { length costs.now ≡ (T.grammar grm.now).tokens }
    requires least { length least.now ≡ (T.grammar grm.now).rules }
    requires choices { length choices.now ≡ (T.grammar grm.now).rules }
    requires rule { rule < (T.grammar grm.now).rules }
    requires content { IsGrammar (T.grammar grm.now) }
    ensures { IsTrue result
        ↔ IsReached (T.grammar grm.now) costs.now least.now (map (choice_of S.number) choices.now) rule }
{
    let Some(cost) = least_cost(least, rule) else {
        return true;
    };
    let Some((p, number)) = choice_at(choices, rule) else {
        return false;
    };
    if !is_production_of(grm, rule, p) {
        return false;
    }
    let symbols = grm.prod(p);
    costs_just(costs, least, symbols, cost) && are_chosen_below(choices, symbols, number)
}

/// Whether each cost in `least` is the cost of a sentence of its rule, as the choices show.
///
/// A choice is a production and a number. The result is true exactly if each rule with a cost has a choice of one of
/// its productions, whose symbols cost exactly that, and whose rules all have choices with lesser numbers.
pub fn check_reached<S: Storage, T: Tables<S>>(
    grm: &T,
    costs: &[u8],
    least: &[Option<u16>],
    choices: &[Option<(PIdx<S>, u32)>],
) -> bool
    requires costs { length costs.now ≡ (T.grammar grm.now).tokens }
    requires least { length least.now ≡ (T.grammar grm.now).rules }
    requires choices { length choices.now ≡ (T.grammar grm.now).rules }
    ensures exact { IsTrue result
        ↔ EachIndex least.now
        (IsReached (T.grammar grm.now) costs.now least.now (map (choice_of S.number) choices.now)) }
    ensures reached { IsTrue result → (r c : ℕ) → rule_cost least.now r ≡ Some c
        → HasSentenceOf (HasProduction (T.grammar grm.now)) (slice_index costs.now) r c }
{
    let rules_len = grm.rules_len().0.to_usize();
    for rule in 0..rules_len {
        if !is_reached(grm, costs, least, choices, rule) {
            return false;
        }
    }
    true
}
