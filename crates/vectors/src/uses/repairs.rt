//! What an error recovery can insert.

use cfgrammar::TIdx;
use cfgrammar::yacc::YaccGrammar;
use cfgrammar::yacc::sentences::SentenceError;
use std::alloc::{AllocError, Global};

/// The sentences of least cost of each rule, where a token that the file asks not to insert costs 4, and any other
/// costs 1.
///
/// # Errors
///
/// Out of memory.
pub fn print_repairs(alloc: Global, grammar: &YaccGrammar<u32>) -> Result<String, AllocError> {
    let cost = |tidx| if grammar.avoid_insert(tidx) { 4 } else { 1 };
    let generator = grammar.sentence_generator(alloc, cost)?;
    let mut lines = String::new(alloc);
    for ridx in grammar.iter_rules() {
        lines.push_str(grammar.rule_name_str(ridx))?;
        match generator.min_sentences(alloc, ridx) {
            Ok(sentences) => write_sentences(&mut lines, grammar, &sentences)?,
            Err(SentenceError::OutOfMemory) => return Err(AllocError),
            Err(error) => write!(lines, ": {error}")?,
        }
        lines.push('\n')?;
    }
    Ok(lines)
}

fn write_sentences(
    lines: &mut String,
    grammar: &YaccGrammar<u32>,
    sentences: &[Vec<TIdx<u32>>],
) -> Result<(), AllocError> {
    for (position, sentence) in sentences.iter().enumerate() {
        lines.push_str(if position == 0 { ":" } else { " |" })?;
        for tidx in sentence {
            if *tidx < grammar.tokens_len() {
                write!(lines, " {}", grammar.token_epp(*tidx).unwrap_or(""))?;
            }
        }
    }
    Ok(())
}
