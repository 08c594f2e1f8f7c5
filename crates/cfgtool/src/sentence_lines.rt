//! The lines that print what sentences cost.

ghost use Rattle.std.specs.Prelude.{◌≡◌, ◌++◌, ◌<◌, All, length, map, IfOk, OnOk, string_bytes};
ghost use Rattle.std.specs.List.{concat};
ghost use Rattle.cfgrammar.specs.Grammar.{HasProduction};
ghost use Rattle.cfgrammar.specs.Generator.{token_cost};
ghost use Rattle.cfgrammar.specs.Sentences.{ListsMinimal, numbers_of};
ghost use Rattle.cfgrammar.specs.Numbered.{core};
ghost use Rattle.cfgtool.specs.SentenceLines.{AreNamed, AreSentenceLines, ReportsEach, ReportsRule};
ghost use Rattle.cfgtool.specs.SentenceLines.{cost_line, greatest_word, least_word, sentence_line, token_text};

use cfgrammar::yacc::YaccGrammar;
use cfgrammar::yacc::sentences::{CostError, SentenceGenerator};
use cfgrammar::{RIdx, TIdx};
use std::alloc::{AllocError, Global};

/// What the sentences of a grammar's rules cost, where each token costs 1: for each rule a line with its name, its
/// least and its greatest cost, and a line for each of its sentences of least cost.
pub fn sentence_lines(alloc: Global, grammar: &YaccGrammar<u32>) -> Result<String, AllocError>
    ensures { IfOk result (λ lines. AreSentenceLines grammar.now (string_bytes lines)) }
{
    let generator = grammar.sentence_generator(alloc, |_| 1)?;
    rule_lines(alloc, grammar, &generator)
}

/// The lines of the rules, with the generator's costs.
fn rule_lines(
    alloc: Global,
    grammar: &YaccGrammar<u32>,
    generator: &SentenceGenerator<'_, u32, YaccGrammar<u32>>,
) -> Result<String, AllocError>
    requires { generator.now.grammar ≡ core grammar.now }
    ensures { IfOk result (λ lines. ReportsEach (ReportsRule grammar.now (token_cost generator.now))
        (length grammar.now.rules)
        (string_bytes lines)) }
{
    let all = generator.all_min_sentences(alloc)?;
    let mut lines = String::new(alloc);
    for ridx in grammar.iter_rules() {
        write_rule(
            &mut lines,
            grammar,
            generator,
            ridx,
            &all[usize::from(ridx)],
        )?;
    }
    Ok(lines)
}

/// Writes the lines of a rule that has these cheapest sentences.
fn write_rule(
    lines: &mut String,
    grammar: &YaccGrammar<u32>,
    generator: &SentenceGenerator<'_, u32, YaccGrammar<u32>>,
    ridx: RIdx<u32>,
    sentences: &[Vec<TIdx<u32>>],
) -> Result<(), AllocError>
    requires within { ridx.0 < length grammar.now.rules }
    requires same { generator.now.grammar ≡ core grammar.now }
    requires minimal { ListsMinimal (HasProduction (core grammar.now)) (token_cost generator.now)
        ridx.0 (map (numbers_of (λ s. s)) sentences.now) }
    ensures { OnOk result ((text : _) × ReportsRule grammar.now (token_cost generator.now) ridx.0 text
        × (string_bytes lines.new ≡ string_bytes lines.old ++ text)) }
{
    grammar.invariant_holds();
    let least = generator.min_sentence_cost(ridx);
    let greatest = generator.max_sentence_cost(ridx);
    write_costs(lines, grammar.rule_name_str(ridx), least, greatest)?;
    write_sentences(lines, grammar, sentences)
}

/// Writes the line of a rule's costs.
fn write_costs(
    lines: &mut String,
    name: &str,
    least: Result<u16, CostError>,
    greatest: Result<Option<u16>, CostError>,
) -> Result<(), AllocError>
    ensures { OnOk result (string_bytes lines.new ≡ string_bytes lines.old ++ cost_line name.now least greatest) }
{
    write!(lines, "{name}: min ")?;
    write_least(lines, least)?;
    lines.push_str(" max ")?;
    write_greatest(lines, greatest)?;
    lines.push_str("\n")
}

/// Writes a least cost, or why there is none.
fn write_least(lines: &mut String, least: Result<u16, CostError>) -> Result<(), AllocError>
    ensures { OnOk result (string_bytes lines.new ≡ string_bytes lines.old ++ least_word least) }
{
    match least {
        Ok(cost) => write!(lines, "{cost}"),
        Err(CostError::NoSentence) => lines.push_str("none"),
        Err(CostError::CostTooLarge) => lines.push_str("too large"),
    }
}

/// Writes a greatest cost, or why there is none.
fn write_greatest(
    lines: &mut String,
    greatest: Result<Option<u16>, CostError>,
) -> Result<(), AllocError>
    ensures { OnOk result (string_bytes lines.new ≡ string_bytes lines.old ++ greatest_word greatest) }
{
    match greatest {
        Ok(None) => lines.push_str("unbounded"),
        Ok(Some(cost)) => write!(lines, "{cost}"),
        Err(CostError::NoSentence) => lines.push_str("none"),
        Err(CostError::CostTooLarge) => lines.push_str("too large"),
    }
}

/// Writes sentences, each as a line.
fn write_sentences(
    lines: &mut String,
    grammar: &YaccGrammar<u32>,
    sentences: &[Vec<TIdx<u32>>],
) -> Result<(), AllocError>
    requires { All (AreNamed grammar.now) (map (numbers_of (λ s. s)) sentences.now) }
    ensures { OnOk result (string_bytes lines.new
        ≡ string_bytes lines.old ++ concat
        (map (sentence_line grammar.now) (map (numbers_of (λ s. s)) sentences.now))) }
{
    for sentence in sentences {
        lines.push_str("-")?;
        write_tokens(lines, grammar, sentence)?;
        lines.push_str("\n")?;
    }
    Ok(())
}

/// Writes tokens, each with a space and its name in double quotes.
fn write_tokens(
    lines: &mut String,
    grammar: &YaccGrammar<u32>,
    tokens: &[TIdx<u32>],
) -> Result<(), AllocError>
    requires { AreNamed grammar.now (map (λ t. t.0) tokens.now) }
    ensures { OnOk result (string_bytes lines.new
        ≡ string_bytes lines.old ++ concat (map (token_text grammar.now) (map (λ t. t.0) tokens.now))) }
{
    for tidx in tokens {
        let name = grammar.token_name(*tidx).unwrap();
        write!(lines, " \"{name}\"")?;
    }
    Ok(())
}
