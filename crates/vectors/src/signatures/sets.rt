//! Sets of grammars, productions that are opened, and sentences.

ghost use Rattle.std.specs.Prelude.{◌-◌, ◌^◌, ◌<◌, length};

use cfgrammar::yacc::SentenceGenerator;
use cfgrammar::yacc::grammar::Productions;
use cfgrammar::yacc::sentences::SentenceError;
use cfgrammar::{PIdx, RIdx, Storage, Symbol, TIdx};
use std::alloc::{AllocError, Global};

/// A production of any grammar, which is opened.
pub fn opened<S: Storage, P: Productions<S>>(
    productions: &mut P,
    production: PIdx<S>,
) -> (RIdx<S>, usize)
    requires in_range { S.number production.0 < length (P.content productions.old).productions }
    requires countable { P.opened productions.old (S.number production.0) < 2 ^ 64 - 1 }
    requires all_countable { P.opened_all productions.old < 2 ^ 128 - 1 }
{
    let rule: RIdx<S> = productions.rule_of(production);
    let symbols: &[Symbol<S>] = productions.open(production);
    (rule, symbols.len())
}

/// How many rules, tokens and productions there are, and how many productions were opened.
pub fn counts<S: Storage, P: Productions<S>>(productions: &P) -> (RIdx<S>, TIdx<S>, PIdx<S>, u128) {
    (
        productions.rules_len(),
        productions.tokens_len(),
        productions.prods_len(),
        productions.opened_all(),
    )
}

/// The cheapest sentences of each rule.
pub fn cheapest(
    alloc: Global,
    generator: &SentenceGenerator<'_, u32>,
) -> Result<Vec<Vec<Vec<TIdx<u32>>>>, AllocError> {
    generator.all_min_sentences(alloc)
}

/// The production that a rule's cheapest sentence begins with, and its number.
pub fn choice(generator: &SentenceGenerator<'_, u32>, rule: RIdx<u32>) -> Option<(PIdx<u32>, u32)>
    requires { rule.0 < generator.now.grammar.rules }
{
    generator.choice(rule)
}

/// Whether a rule has a sentence, if that is known.
pub fn is_productive(error: &SentenceError) -> Option<bool> {
    match error {
        SentenceError::NoSentence => Some(false),
        SentenceError::CostTooLarge => Some(true),
        SentenceError::OutOfMemory => None,
    }
}
