//! All minimal sentences of a rule, made of those of the rules that it needs.

ghost use Rattle.std.specs.Prelude.{◌≡◌, ◌↔◌, ℕ, ◌<◌, [], ◌++◌, List, All, Contains, Err, IfOk, Some, length, map};
ghost use Rattle.std.specs.List.Sorted.{IsStrictlySortedBy};
ghost use Rattle.derivation.specs.Grammar.{HasProduction};
ghost use Rattle.derivation.specs.Costs.{Minimal};
ghost use Rattle.derivation.specs.Productive.{Unproductive};
ghost use Rattle.cfgleast.specs.Generator.{IsTooLarge, cost_answer, token_cost};
ghost use Rattle.cfgcosts.specs.Inner.Targets.{HasSameSentences};
ghost use Rattle.cfgcosts.specs.Inner.Minimal.{AreMinimal, IsMadeBy, IsReadyFor, sentences_in, words_of};
ghost use Rattle.cfgchoices.specs.FirstSentence.{lexicographic};
ghost use Rattle.cfgcosts.specs.Sentences.{numbers_of};
ghost use Rattle.cfgchoices.specs.Kinds.{production_numbers};

use crate::errors::SentenceError;
use crate::generator::SentenceGenerator;
use crate::minimal::products::{SentenceTable, made_by_sequence};
use cfgindex::{PIdx, RIdx, Storage, TIdx, to_storage};
use cfgtables::Tables;
use std::alloc::{AllocError, Global};
use std::collections::BTreeMap;

impl<'a, S: Storage, T: Tables<S>> SentenceGenerator<'a, S, T> {
    /// A rule with the same minimal sentences: the rule itself or, if its only optimal production is a chain
    /// production, the last rule of that chain.
    fn last_target(&self, rule: RIdx<S>) -> RIdx<S>
        requires { S.number rule.0 < self.now.grammar.rules }
        ensures { HasSameSentences self.now (S.number rule.0) (S.number result.0) }
    {
        self.invariant_holds();
        self.last_targets[usize::from(rule)]
    }

    /// What the productions make of the table's sentences, each word once, in lexicographic order.
    ///
    /// # Errors
    ///
    /// Out of memory.
    pub(crate) fn made_words(
        &self,
        alloc: Global,
        base: &[PIdx<S>],
        table: &SentenceTable<S>,
    ) -> Result<Vec<Vec<TIdx<S>>>, AllocError>
        requires { All (λ p. p < length self.now.grammar.productions) (production_numbers S.number base.now) }
        ensures all { IfOk result (λ words. (w : List ℕ) → Contains (words_of S.number words) w
            ↔ IsMadeBy self.now.grammar (sentences_in S.number table.now) (production_numbers S.number base.now) w) }
        ensures order { IfOk result (λ words. IsStrictlySortedBy lexicographic (words_of S.number words)) }
    {
        let mut words = Vec::new(alloc);
        for p in base {
            let mut made = made_by_sequence(alloc, table, self.tables.prod(*p))?;
            words.append(&mut made)?;
        }
        words.sort_unstable();
        words.dedup();
        Ok(words)
    }

    /// All minimal sentences of the rule, which has this cost, if the table has those of the rules that they are made
    /// of.
    ///
    /// # Errors
    ///
    /// Out of memory.
    fn rule_sentences(
        &self,
        alloc: Global,
        rule: RIdx<S>,
        cost: u32,
        table: &SentenceTable<S>,
    ) -> Result<Vec<Vec<TIdx<S>>>, AllocError>
        requires rule { S.number rule.0 < self.now.grammar.rules }
        requires known { cost_answer self.now (S.number rule.0) ≡ Some cost }
        requires ready { IsReadyFor self.now (sentences_in S.number table.now) (S.number rule.0) }
        ensures { IfOk result (λ words. AreMinimal self.now (S.number rule.0) (words_of S.number words)) }
    {
        self.invariant_holds();
        if cost == 0 {
            let mut words = Vec::new(alloc);
            words.push(Vec::new(alloc))?;
            return Ok(words);
        }
        let base = self.base_productions(alloc, rule)?;
        self.made_words(alloc, &base, table)
    }

    /// All minimal sentences of the rule, from a table that is filled by increasing cost.
    ///
    /// # Errors
    ///
    /// Out of memory.
    fn all_sentences(&self, alloc: Global, rule: RIdx<S>) -> Result<Vec<Vec<TIdx<S>>>, AllocError>
        requires rule { S.number rule.0 < self.now.grammar.rules }
        requires known { (c : ℕ) × (cost_answer self.now (S.number rule.0) ≡ Some c) }
        ensures { IfOk result (λ words. AreMinimal self.now (S.number rule.0) (words_of S.number words)) }
    {
        self.invariant_holds();
        let mut table = BTreeMap::new(alloc);
        let mut requested = self.requested_rules(alloc, rule)?;
        while let Some((cost, number)) = requested.pop() {
            let base = RIdx(to_storage(number as usize));
            let sentences = self.rule_sentences(alloc, base, cost, &table)?;
            drop(table.insert(number as usize, sentences)?);
        }
        let all = table.remove(&usize::from(rule));
        Ok(all.unwrap_or(Vec::new(alloc)))
    }

    /// All cheapest sentences of the rule, as lists of token indices, each once, in lexicographic order. None of them
    /// is a prefix of another. Only rules that they are made of are visited.
    ///
    /// # Errors
    ///
    /// Those of [`min_sentence_cost`](SentenceGenerator::min_sentence_cost); if that succeeds, only out of memory.
    pub fn min_sentences(
        &self,
        alloc: Global,
        rule: RIdx<S>,
    ) -> Result<Vec<Vec<TIdx<S>>>, SentenceError>
        requires { S.number rule.0 < self.now.grammar.rules }
        ensures all { IfOk result (λ sentences. (w : List ℕ)
            → Contains (map (numbers_of S.number) sentences.items) w
            ↔ Minimal (HasProduction self.now.grammar) (token_cost self.now) (S.number rule.0) w) }
        ensures order { IfOk result (λ sentences.
            IsStrictlySortedBy lexicographic (map (numbers_of S.number) sentences.items)) }
        ensures prefix_free { IfOk result (λ sentences. (w rest : List ℕ)
            → Contains (map (numbers_of S.number) sentences.items) w
            → Contains (map (numbers_of S.number) sentences.items) (w ++ rest) → rest ≡ []) }
        ensures none { (result ≡ Err SentenceError.NoSentence)
            ↔ Unproductive (HasProduction self.now.grammar) (S.number rule.0) }
        ensures too_large { (result ≡ Err SentenceError.CostTooLarge)
            ↔ IsTooLarge (HasProduction self.now.grammar) (token_cost self.now) (S.number rule.0) }
    {
        self.invariant_holds();
        self.min_sentence_cost(rule)?;
        let sentences = self.all_sentences(alloc, self.last_target(rule))?;
        Ok(sentences)
    }
}
