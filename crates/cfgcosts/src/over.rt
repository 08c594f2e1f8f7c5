//! The first minimal sentence of a rule, from productions that are opened one by one.

ghost use Rattle.std.specs.Prelude.{◌≡◌, ◌↔◌, ℕ, ◌+◌, ◌*◌, ◌<◌, ◌≤◌, ◌⊎◌, All, Err, IfOk, length, map};
ghost use Rattle.derivation.specs.Grammar.{HasProduction};
ghost use Rattle.derivation.specs.Sentence.{cost_of};
ghost use Rattle.derivation.specs.Costs.{Least};
ghost use Rattle.derivation.specs.Productive.{Unproductive};
ghost use Rattle.cfgleast.specs.Generator.{IsTooLarge, token_cost};
ghost use Rattle.cfgchoices.specs.FirstSentence.{FirstMinimal};
ghost use Rattle.cfgcosts.specs.DerivedBy.{IsDerivedBy, OpensNoneFree};

use crate::errors::SentenceError;
use crate::generator::SentenceGenerator;
use crate::opener::Counted;
use cfgindex::{RIdx, Storage, TIdx};
use cfgtables::{Productions, Tables};
use std::alloc::Global;

/// The lexicographically first of the rule's cheapest sentences, as [`SentenceGenerator::min_sentence`] gives it. The
/// symbols come only from `productions`, which are the generator's.
///
/// The number of openings is at most 1 plus the sentence's tokens times the rules. With the opened productions, each
/// used as often as it was opened, the rule derives the sentence with rules of cost 0 between its tokens: these are
/// never opened.
///
/// # Errors
///
/// Those of [`SentenceGenerator::min_sentence_cost`], and then nothing was opened; if that succeeds, only out of
/// memory: then the least cost replaces the number of tokens in the bound on openings.
pub fn min_sentence_over<'a, S: Storage, T: Tables<S>, P: Productions<S>>(
    alloc: Global,
    productions: &mut P,
    generator: &SentenceGenerator<'a, S, T>,
    rule: RIdx<S>,
) -> Result<Vec<TIdx<S>>, SentenceError>
    requires rule { S.number rule.0 < generator.now.grammar.rules }
    requires same { P.content productions.old ≡ generator.now.grammar }
    requires fresh { (q : ℕ) → q < length generator.now.grammar.productions → P.opened productions.old q ≡ 0 }
    requires all_fresh { P.opened_all productions.old ≡ 0 }
    ensures first { IfOk result (λ sentence.
        FirstMinimal (HasProduction generator.now.grammar) (token_cost generator.now) (S.number rule.0)
        (map (λ t. S.number t.0) sentence.items)) }
    ensures length { IfOk result (λ sentence.
        length sentence.items ≤ cost_of (token_cost generator.now) (map (λ t. S.number t.0) sentence.items)) }
    ensures within { IfOk result (λ sentence.
        All (λ t. t + 1 < generator.now.grammar.tokens) (map (λ t. S.number t.0) sentence.items)) }
    ensures none { (result ≡ Err SentenceError.NoSentence)
        ↔ Unproductive (HasProduction generator.now.grammar) (S.number rule.0) }
    ensures too_large { (result ≡ Err SentenceError.CostTooLarge)
        ↔ IsTooLarge (HasProduction generator.now.grammar) (token_cost generator.now) (S.number rule.0) }
    ensures content { P.content productions.new ≡ P.content productions.old }
    ensures derived { IfOk result (λ sentence. IsDerivedBy generator.now.grammar (token_cost generator.now)
        (P.opened productions.new) (P.opened_all productions.new) (S.number rule.0)
        (map (λ t. S.number t.0) sentence.items)) }
    ensures few { IfOk result (λ sentence.
        P.opened_all productions.new ≤ 1 + length sentence.items * generator.now.grammar.rules) }
    ensures free { OpensNoneFree generator.now.grammar (token_cost generator.now) (P.opened productions.new) }
    ensures cut_short { result ≡ Err SentenceError.OutOfMemory
        → (c : ℕ) → Least (HasProduction generator.now.grammar) (token_cost generator.now) (S.number rule.0) c
        → P.opened_all productions.new ≤ 1 + c * generator.now.grammar.rules }
    ensures refused { (result ≡ Err SentenceError.NoSentence) ⊎ (result ≡ Err SentenceError.CostTooLarge)
        → productions.new ≡ productions.old }
{
    generator.first_sentence::<P, Counted>(alloc, productions, rule)
}
