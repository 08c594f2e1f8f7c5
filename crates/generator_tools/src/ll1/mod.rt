//! LL(1) grammars: whether a grammar is one, and which production an LL(1) parser uses (Aho, Lam, Sethi and Ullman,
//! 4.4.3).

pub mod reachable;

ghost use Rattle.std.specs.Prelude.{◌≡◌, ◌↔◌, ◌<◌, ℕ, length, map, IfOk, IsTrue};
ghost use Rattle.cfgrammar.specs.Firsts.{AreFirsts, IsAmongFirsts, IsNullableRule};
ghost use Rattle.cfgrammar.specs.Follow.{MayFollow};
ghost use Rattle.cfgrammar.specs.Follows.{AreFollows};
ghost use Rattle.cfgrammar.specs.Grammar.{Grammar, IsGrammar};
ghost use Rattle.cfgrammar.specs.Numbered.{core};
ghost use Rattle.cfgrammar.specs.NumberedSymbols.{sym_of};
ghost use Rattle.cfgrammar.specs.Openings.{nth_production};
ghost use Rattle.cfgrammar.specs.Table.{HasBit};
ghost use Rattle.generator_tools.specs.Ll1.{IsDecision, IsEntry, IsLl1, MeetsConditions};
ghost use Rattle.generator_tools.specs.Inner.Sets.{IsUsedBySets};

use cfgrammar::laws::{lists_begin_symbol_by_symbol, tokens_are_their_numbers};
use cfgrammar::yacc::YaccGrammar;
use cfgrammar::yacc::firsts::YaccFirsts;
use cfgrammar::yacc::follows::YaccFollows;
use cfgrammar::{PIdx, RIdx, Storage, Symbol, TIdx};
use std::alloc::{AllocError, Global};

/// What an LL(1) parser does that is at a rule and reads a token.
#[derive(Drop)]
pub enum Decision<S> {
    /// No production of the rule is used: the token is an error.
    NoProduction,
    /// It uses this production.
    Production(PIdx<S>),
    /// At least two productions are used, which these are two of: the grammar isn't LL(1).
    Conflict(PIdx<S>, PIdx<S>),
}

/// If some token follows each rule, a grammar is LL(1) exactly if any two productions of a rule meet the three
/// conditions of Aho, Lam, Sethi and Ullman, 4.4.3.
pub fn tables_meet_the_conditions()
    ensures { (g : Grammar) → IsGrammar g
        → ((r : ℕ) → r < g.rules → (t : ℕ) × (t < g.tokens) × MayFollow g r t)
        → IsLl1 g ↔ MeetsConditions g }
{}

/// Whether a grammar is LL(1): at no token two productions of a rule are used.
///
/// # Errors
///
/// Out of memory.
pub fn is_ll1<S: Storage>(alloc: Global, grammar: &YaccGrammar<S>) -> Result<bool, AllocError>
    ensures { IfOk result (λ is_ll1. IsTrue is_ll1 ↔ IsLl1 (core grammar.now)) }
{
    let firsts = grammar.firsts(alloc)?;
    let follows = grammar.follows(alloc)?;
    Ok(is_ll1_by(grammar, &firsts, &follows))
}

/// Whether a grammar is LL(1), given its sets.
pub fn is_ll1_by<S: Storage>(
    grammar: &YaccGrammar<S>,
    firsts: &YaccFirsts<S>,
    follows: &YaccFollows<S>,
) -> bool
    requires firsts { AreFirsts (core grammar.now) firsts.now }
    requires follows { AreFollows (core grammar.now) follows.now }
    ensures { IsTrue result ↔ IsLl1 (core grammar.now) }
{
    for rule in grammar.iter_rules() {
        if !is_decided(grammar, firsts, follows, rule) {
            return false;
        }
    }
    true
}

/// Whether at each token at most one production of the rule is used.
fn is_decided<S: Storage>(
    grammar: &YaccGrammar<S>,
    firsts: &YaccFirsts<S>,
    follows: &YaccFollows<S>,
    rule: RIdx<S>,
) -> bool
    requires firsts { AreFirsts (core grammar.now) firsts.now }
    requires follows { AreFollows (core grammar.now) follows.now }
    requires rule { S.number rule.0 < length grammar.now.rules }
    ensures { IsTrue result ↔ ((t p q : ℕ) → t < length grammar.now.tokens
        → IsEntry (core grammar.now) (S.number rule.0) t p
        → IsEntry (core grammar.now) (S.number rule.0) t q → p ≡ q) }
{
    for token in grammar.iter_tidxs() {
        if let Decision::Conflict(_, _) = decide(grammar, firsts, follows, rule, token) {
            return false;
        }
    }
    true
}

/// The production of the rule that an LL(1) parser uses at the token, given the grammar's sets.
pub fn decide<S: Storage>(
    grammar: &YaccGrammar<S>,
    firsts: &YaccFirsts<S>,
    follows: &YaccFollows<S>,
    rule: RIdx<S>,
    token: TIdx<S>,
) -> Decision<S>
    requires firsts { AreFirsts (core grammar.now) firsts.now }
    requires follows { AreFollows (core grammar.now) follows.now }
    requires rule { S.number rule.0 < length grammar.now.rules }
    ensures { IsDecision S.number (core grammar.now) (S.number rule.0) (S.number token.0) result }
{
    grammar.invariant_holds();
    let mut used = None;
    for pidx in grammar.rule_to_prods(rule) {
        if is_used(grammar, firsts, follows, *pidx, token) {
            match used {
                None => used = Some(*pidx),
                Some(first) => return Decision::Conflict(first, *pidx),
            }
        }
    }
    match used {
        None => Decision::NoProduction,
        Some(pidx) => Decision::Production(pidx),
    }
}

/// Whether the production is used at the token.
fn is_used<S: Storage>(
    grammar: &YaccGrammar<S>,
    firsts: &YaccFirsts<S>,
    follows: &YaccFollows<S>,
    pidx: PIdx<S>,
    token: TIdx<S>,
) -> bool
    requires firsts { AreFirsts (core grammar.now) firsts.now }
    requires follows { AreFollows (core grammar.now) follows.now }
    requires production { S.number pidx.0 < length grammar.now.productions }
    ensures { IsTrue result ↔ IsEntry (core grammar.now)
        (nth_production (core grammar.now) (S.number pidx.0)).rule (S.number token.0) (S.number pidx.0) }
{
    lists_begin_symbol_by_symbol();
    is_used_by_sets(
        firsts,
        follows,
        grammar.prod_to_rule(pidx),
        grammar.prod(pidx),
        token,
    )
}

/// Whether the sets have the token where the rule's production with these symbols is used.
fn is_used_by_sets<S: Storage>(
    firsts: &YaccFirsts<S>,
    follows: &YaccFollows<S>,
    rule: RIdx<S>,
    symbols: &[Symbol<S>],
    token: TIdx<S>,
) -> bool
    ensures { IsTrue result ↔ IsUsedBySets (IsNullableRule firsts.now) (IsAmongFirsts firsts.now) (HasBit follows.now)
        (S.number rule.0) (map (sym_of S.number) symbols.now) (S.number token.0) }
{
    tokens_are_their_numbers::<S>();
    for symbol in symbols {
        match *symbol {
            Symbol::Token(tidx) => return tidx == token,
            Symbol::Rule(ridx) => {
                if firsts.is_set(ridx, token) {
                    return true;
                }
                if !firsts.is_epsilon_set(ridx) {
                    return false;
                }
            }
        }
    }
    follows.is_set(rule, token)
}
