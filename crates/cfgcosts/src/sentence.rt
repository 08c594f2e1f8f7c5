//! The first minimal sentence of a rule, from the productions that were chosen for it.

ghost use Rattle.std.specs.Prelude.{◌≡◌, ◌↔◌, ℕ, ◌+◌, ◌<◌, ◌≤◌, ◌⊎◌, [], List, All, Err, IfOk};
ghost use Rattle.std.specs.Prelude.{OnErr, Some, length, map};
ghost use Rattle.derivation.specs.Grammar.{HasProduction};
ghost use Rattle.derivation.specs.Sentence.{cost_of};
ghost use Rattle.derivation.specs.Productive.{Unproductive};
ghost use Rattle.cfgleast.specs.Generator.{IsTooLarge, cost_answer, token_cost};
ghost use Rattle.cfgchoices.specs.FirstSentence.{FirstMinimal};
ghost use Rattle.cfgcosts.specs.Inner.Walk.{HasStopped, HasWalked};

use crate::errors::SentenceError;
use crate::generator::SentenceGenerator;
use crate::opener::{Opener, Uncounted};
use cfgindex::{RIdx, Storage, Symbol, TIdx};
use cfgtables::Tables;
use std::alloc::{AllocError, Global};

impl<'a, S: Storage, T: Tables<S>> SentenceGenerator<'a, S, T> {
    /// The sentence that the productions chosen for first sentences derive. They are opened on the way from its last
    /// token to its first.
    ///
    /// # Errors
    ///
    /// Out of memory.
    fn walk<X, O: Opener<S, X>>(
        &self,
        alloc: Global,
        source: &mut X,
        rule: RIdx<S>,
    ) -> Result<Vec<TIdx<S>>, AllocError>
        requires rule { S.number rule.0 < self.now.grammar.rules }
        requires cost { (c : ℕ) × (cost_answer self.now (S.number rule.0) ≡ Some c) }
        requires same { O.grammar source.old ≡ self.now.grammar }
        requires fresh { O.has_opened source.old [] }
        ensures same { O.grammar source.new ≡ self.now.grammar }
        ensures walked { IfOk result (λ sentence. HasWalked self.now.grammar (token_cost self.now) (S.number rule.0)
            (O.has_opened source.new) (map (λ t. S.number t.0) sentence.items)) }
        ensures stopped { OnErr result (HasStopped self.now.grammar (token_cost self.now) (S.number rule.0)
            (O.has_opened source.new)) }
    {
        self.tables.invariant_holds();
        let mut sentence = Vec::new(alloc);
        let mut pending = Vec::new(alloc);
        pending.push(Symbol::Rule(rule))?;
        while let Some(symbol) = pending.pop() {
            match symbol {
                Symbol::Token(token) => sentence.push(token)?,
                Symbol::Rule(rule) => {
                    if let Some((p, _)) = self.firsts[usize::from(rule)] {
                        O::open_onto(source, p, &mut pending)?;
                    }
                }
            }
        }
        sentence.reverse();
        Ok(sentence)
    }

    /// The rule's first minimal sentence, from productions that are opened.
    ///
    /// # Errors
    ///
    /// Those of [`min_sentence_cost`](SentenceGenerator::min_sentence_cost), and then nothing was opened; if that
    /// succeeds, only out of memory.
    pub(crate) fn first_sentence<X, O: Opener<S, X>>(
        &self,
        alloc: Global,
        source: &mut X,
        rule: RIdx<S>,
    ) -> Result<Vec<TIdx<S>>, SentenceError>
        requires rule { S.number rule.0 < self.now.grammar.rules }
        requires same { O.grammar source.old ≡ self.now.grammar }
        requires fresh { O.has_opened source.old [] }
        ensures same { O.grammar source.new ≡ self.now.grammar }
        ensures walked { IfOk result (λ sentence. HasWalked self.now.grammar (token_cost self.now) (S.number rule.0)
            (O.has_opened source.new) (map (λ t. S.number t.0) sentence.items)) }
        ensures stopped { result ≡ Err SentenceError.OutOfMemory → HasStopped self.now.grammar (token_cost self.now)
            (S.number rule.0) (O.has_opened source.new) }
        ensures none { (result ≡ Err SentenceError.NoSentence)
            ↔ Unproductive (HasProduction self.now.grammar) (S.number rule.0) }
        ensures too_large { (result ≡ Err SentenceError.CostTooLarge)
            ↔ IsTooLarge (HasProduction self.now.grammar) (token_cost self.now) (S.number rule.0) }
        ensures refused { (result ≡ Err SentenceError.NoSentence) ⊎ (result ≡ Err SentenceError.CostTooLarge)
            → source.new ≡ source.old }
    {
        self.min_sentence_cost(rule)?;
        let sentence = self.walk::<X, O>(alloc, source, rule)?;
        Ok(sentence)
    }

    /// The lexicographically first of the rule's cheapest sentences. It has at most as many tokens as it costs, and
    /// none of them is the end token.
    ///
    /// # Errors
    ///
    /// Those of [`min_sentence_cost`](SentenceGenerator::min_sentence_cost); if that succeeds, only out of memory.
    pub fn min_sentence(&self, alloc: Global, rule: RIdx<S>) -> Result<Vec<TIdx<S>>, SentenceError>
        requires { S.number rule.0 < self.now.grammar.rules }
        ensures first { IfOk result (λ sentence. FirstMinimal (HasProduction self.now.grammar) (token_cost self.now)
            (S.number rule.0) (map (λ t. S.number t.0) sentence.items)) }
        ensures length { IfOk result (λ sentence.
            length sentence.items ≤ cost_of (token_cost self.now) (map (λ t. S.number t.0) sentence.items)) }
        ensures within { IfOk result (λ sentence.
            All (λ t. t + 1 < self.now.grammar.tokens) (map (λ t. S.number t.0) sentence.items)) }
        ensures none { (result ≡ Err SentenceError.NoSentence)
            ↔ Unproductive (HasProduction self.now.grammar) (S.number rule.0) }
        ensures too_large { (result ≡ Err SentenceError.CostTooLarge)
            ↔ IsTooLarge (HasProduction self.now.grammar) (token_cost self.now) (S.number rule.0) }
    {
        let mut tables = self.tables;
        self.first_sentence::<&'a T, Uncounted>(alloc, &mut tables, rule)
    }
}
