//! Sentences to test a parser with.

use cfgrammar::yacc::YaccGrammar;
use cfgrammar::yacc::sentences::{SentenceError, SentenceGenerator};
use cfgrammar::{Symbol, TIdx};
use std::alloc::{AllocError, Global};

/// Adds each production with its number and the shortest sentence that begins with it, one per line.
///
/// # Errors
///
/// Out of memory.
pub fn print_sentences(
    alloc: Global,
    lines: &mut String,
    grammar: &YaccGrammar<u32>,
) -> Result<(), AllocError> {
    let generator = grammar.sentence_generator(alloc, |_| 1)?;
    write_productions(alloc, lines, grammar, &generator)
}

fn write_productions(
    alloc: Global,
    lines: &mut String,
    grammar: &YaccGrammar<u32>,
    generator: &SentenceGenerator<'_, u32>,
) -> Result<(), AllocError> {
    for pidx in grammar.iter_pidxs() {
        write!(lines, "{} {} =>", pidx.0, grammar.pp_prod(alloc, pidx)?)?;
        match write_sentence(alloc, lines, grammar, generator, grammar.prod(pidx)) {
            Ok(()) => lines.push('\n')?,
            Err(SentenceError::OutOfMemory) => return Err(AllocError),
            Err(error) => writeln!(lines, " {error}")?,
        }
    }
    Ok(())
}

/// Adds the shortest sentence of a list of symbols.
fn write_sentence(
    alloc: Global,
    lines: &mut String,
    grammar: &YaccGrammar<u32>,
    generator: &SentenceGenerator<'_, u32>,
    symbols: &[Symbol<u32>],
) -> Result<(), SentenceError> {
    for symbol in symbols {
        match *symbol {
            Symbol::Token(tidx) => write_tokens(lines, grammar, &[tidx])?,
            Symbol::Rule(ridx) if ridx < generator.rules_len() => {
                write_tokens(lines, grammar, &generator.min_sentence(alloc, ridx)?)?
            }
            Symbol::Rule(_) => {}
        }
    }
    Ok(())
}

fn write_tokens(
    lines: &mut String,
    grammar: &YaccGrammar<u32>,
    tokens: &[TIdx<u32>],
) -> Result<(), AllocError> {
    for tidx in tokens {
        if *tidx < grammar.tokens_len() {
            write!(lines, " {}", grammar.token_epp(*tidx).unwrap_or(""))?;
        }
    }
    Ok(())
}
