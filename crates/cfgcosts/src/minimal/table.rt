//! The minimal sentences of all rules, in one table.

ghost use Rattle.std.specs.Prelude.{◌≡◌, ◌↔◌, ℕ, ◌<◌, Contains, IfOk, IsTrue, OnOk, Some, length, map};
ghost use Rattle.derivation.specs.Grammar.{HasProduction};
ghost use Rattle.cfgleast.specs.Generator.{cost_answer, token_cost};
ghost use Rattle.cfgcosts.specs.Inner.Minimal.{AreListed, IsReadyComponent, PutsEach, sentences_in, words_of};
ghost use Rattle.cfgcosts.specs.Sentences.{ListAllMinimal, numbers_of};

use crate::generator::SentenceGenerator;
use crate::minimal::optimal::OptimalUses;
use crate::minimal::products::{SentenceTable, copied};
use cfgindex::{RIdx, Storage, TIdx, to_storage};
use cfgtables::Tables;
use search::Components;
use std::alloc::{AllocError, Global};
use std::collections::BTreeMap;

/// Puts a copy of the words into the table for each of the rules.
///
/// # Errors
///
/// Out of memory.
fn put_each<S: Storage>(
    alloc: Global,
    rules: &[usize],
    words: &[Vec<TIdx<S>>],
    table: &mut SentenceTable<S>,
) -> Result<(), AllocError>
    ensures { OnOk result (PutsEach rules.now (map (numbers_of S.number) words.now)
        (sentences_in S.number table.old) (sentences_in S.number table.new)) }
{
    for rule in rules {
        drop(table.insert(*rule, copied(alloc, words)?)?);
    }
    Ok(())
}

impl<'a, S: Storage, T: Tables<S>> SentenceGenerator<'a, S, T> {
    /// Whether the rule costs nothing.
    fn is_free(&self, rule: usize) -> bool
        requires { rule < self.now.grammar.rules }
        ensures { IsTrue result ↔ (cost_answer self.now rule ≡ Some 0) }
    {
        self.invariant_holds();
        match self.min_sentence_cost(RIdx(to_storage(rule))) {
            Ok(cost) => cost == 0,
            Err(_) => false,
        }
    }

    /// The sentences of rules that lead to each other by chain productions. The table has those of the other rules in
    /// their optimal productions.
    ///
    /// # Errors
    ///
    /// Out of memory.
    fn component_sentences(
        &self,
        alloc: Global,
        rules: &[usize],
        table: &SentenceTable<S>,
    ) -> Result<Vec<Vec<TIdx<S>>>, AllocError>
        requires some { 0 < length rules.now }
        requires ready { IsReadyComponent self.now (sentences_in S.number table.now) rules.now }
        ensures { IfOk result (λ words. (r : ℕ) → Contains rules.now r
            → AreListed self.now r (words_of S.number words)) }
    {
        self.invariant_holds();
        if self.is_free(rules[0]) {
            let mut words = Vec::new(alloc);
            words.push(Vec::new(alloc))?;
            return Ok(words);
        }
        let optimal = self.optimal_productions(alloc, rules)?;
        self.made_words(alloc, &optimal, table)
    }

    /// The sentences of each rule, after those of the rules in its optimal productions.
    ///
    /// # Errors
    ///
    /// Out of memory.
    fn sentence_table(&self, alloc: Global) -> Result<SentenceTable<S>, AllocError>
        ensures { IfOk result (λ table. (r : ℕ) → r < self.now.grammar.rules
            → AreListed self.now r (sentences_in S.number table r)) }
    {
        self.invariant_holds();
        let uses = OptimalUses {
            alloc,
            generator: self,
        };
        let components = Components::of(alloc, &uses, self.rules_len().0.to_usize())?;
        let mut table = BTreeMap::new(alloc);
        for number in 0..components.members.len() {
            let rules = components.members.of(number);
            let words = self.component_sentences(alloc, rules, &table)?;
            put_each(alloc, rules, &words, &mut table)?;
        }
        Ok(table)
    }

    /// All cheapest sentences of each rule, by the rules' numbers: lists of token indices, each once, in lexicographic
    /// order; none where [`min_sentence_cost`](SentenceGenerator::min_sentence_cost) returns an error. Each production
    /// makes its sentences once, for all rules that have them.
    ///
    /// # Errors
    ///
    /// Out of memory.
    pub fn all_min_sentences(&self, alloc: Global) -> Result<Vec<Vec<Vec<TIdx<S>>>>, AllocError>
        ensures { IfOk result (λ all. ListAllMinimal (HasProduction self.now.grammar) (token_cost self.now)
            self.now.grammar.rules (map (λ sentences. map (numbers_of S.number) sentences.items) all.items)) }
    {
        let mut table = self.sentence_table(alloc)?;
        let mut all = Vec::new(alloc);
        for number in 0..self.rules_len().0.to_usize() {
            let sentences = table.remove(&number);
            all.push(sentences.unwrap_or(Vec::new(alloc)))?;
        }
        Ok(all)
    }
}
