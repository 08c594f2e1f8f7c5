//! What lists of symbols derive by sentences of their rules.

ghost use Rattle.std.specs.Prelude.{◌≡◌, ◌++◌, IfOk, OnOk, map};
ghost use Rattle.cfgtables.specs.NumberedSymbols.{sym_of};
ghost use Rattle.cfgcosts.specs.Sentences.{numbers_of};
ghost use Rattle.cfgcosts.specs.Inner.Minimal.{joined, sequence_words, sentences_in, words_of, words_of_symbol};

use cfgindex::{Storage, Symbol, TIdx};
use std::alloc::{AllocError, Global};
use std::collections::BTreeMap;
use std::slice::from_ref;

/// Sentences of some rules.
pub(crate) type SentenceTable<S> = BTreeMap<usize, Vec<Vec<TIdx<S>>>>;

/// A copy of the words.
///
/// # Errors
///
/// Out of memory.
pub(crate) fn copied<S: Storage>(
    alloc: Global,
    words: &[Vec<TIdx<S>>],
) -> Result<Vec<Vec<TIdx<S>>>, AllocError>
    ensures { IfOk result (λ copy. words_of S.number copy ≡ map (numbers_of S.number) words.now) }
{
    let mut copy = Vec::new(alloc);
    for word in words {
        copy.push(Vec::from_slice(alloc, word)?)?;
    }
    Ok(copy)
}

/// Two words, concatenated.
///
/// # Errors
///
/// Out of memory.
fn join<S: Storage>(
    alloc: Global,
    prefix: &[TIdx<S>],
    suffix: &[TIdx<S>],
) -> Result<Vec<TIdx<S>>, AllocError>
    ensures { IfOk result (λ word. word.items ≡ prefix.now ++ suffix.now) }
{
    let mut word = Vec::with_capacity(alloc, prefix.len().saturating_add(suffix.len()))?;
    word.extend_from_slice(prefix)?;
    word.extend_from_slice(suffix)?;
    Ok(word)
}

/// Adds the words that are `prefix` followed by one of `suffixes`.
///
/// # Errors
///
/// Out of memory.
#[tactic(auto, using(std::proofs::lemmas::Grind::common_steps))]
fn join_each<S: Storage>(
    alloc: Global,
    mut prefix: Vec<TIdx<S>>,
    suffixes: &[Vec<TIdx<S>>],
    words: &mut Vec<Vec<TIdx<S>>>,
) -> Result<(), AllocError>
    ensures { OnOk result (map (numbers_of S.number) words.new.items ≡ map (numbers_of S.number) words.old.items
        ++ map (λ suffix. numbers_of S.number prefix ++ suffix) (map (numbers_of S.number) suffixes.now)) }
{
    let Some((last, others)) = suffixes.split_last() else {
        return Ok(());
    };
    for suffix in others {
        words.push(join(alloc, &prefix, suffix)?)?;
    }
    prefix.extend_from_slice(last)?;
    words.push(prefix)?;
    Ok(())
}

/// The words that are one of `prefixes` followed by one of `suffixes`.
///
/// # Errors
///
/// Out of memory.
#[tactic(auto, using(std::proofs::lemmas::Grind::common_steps))]
fn join_all<S: Storage>(
    alloc: Global,
    prefixes: Vec<Vec<TIdx<S>>>,
    suffixes: &[Vec<TIdx<S>>],
) -> Result<Vec<Vec<TIdx<S>>>, AllocError>
    ensures { IfOk result (λ words.
        words_of S.number words ≡ joined (words_of S.number prefixes) (map (numbers_of S.number) suffixes.now)) }
{
    let mut words = Vec::new(alloc);
    for prefix in prefixes {
        join_each(alloc, prefix, suffixes, &mut words)?;
    }
    Ok(words)
}

/// The words, each followed by each word of the symbol.
///
/// # Errors
///
/// Out of memory.
fn push_symbol<S: Storage>(
    alloc: Global,
    table: &SentenceTable<S>,
    words: Vec<Vec<TIdx<S>>>,
    symbol: Symbol<S>,
) -> Result<Vec<Vec<TIdx<S>>>, AllocError>
    ensures { IfOk result (λ longer. words_of S.number longer
        ≡ joined (words_of S.number words)
        (words_of_symbol (sentences_in S.number table.now) (sym_of S.number symbol))) }
{
    match symbol {
        Symbol::Rule(rule) => match table.get(&usize::from(rule)) {
            Some(suffixes) => join_all(alloc, words, suffixes),
            None => Ok(Vec::new(alloc)),
        },
        Symbol::Token(token) => {
            let mut word = Vec::new(alloc);
            word.push(token)?;
            join_all(alloc, words, from_ref(&word))
        }
    }
}

/// The words that the symbols derive, if the rules among them have just the sentences of the table.
///
/// # Errors
///
/// Out of memory.
pub(crate) fn made_by_sequence<S: Storage>(
    alloc: Global,
    table: &SentenceTable<S>,
    symbols: &[Symbol<S>],
) -> Result<Vec<Vec<TIdx<S>>>, AllocError>
    ensures { IfOk result (λ words. words_of S.number words
        ≡ sequence_words (sentences_in S.number table.now) (map (sym_of S.number) symbols.now)) }
{
    let mut words = Vec::new(alloc);
    words.push(Vec::new(alloc))?;
    for symbol in symbols {
        words = push_symbol(alloc, table, words, *symbol)?;
    }
    Ok(words)
}
