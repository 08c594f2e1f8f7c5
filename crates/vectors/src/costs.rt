//! What sentences cost, the minimal ones, and the certificate of least costs.

ghost use Rattle.std.specs.Prelude.{◌≡◌, ◌<◌};
ghost use Rattle.cfgrammar.specs.Numbered.{core};

use crate::page::Page;
use cfgrammar::yacc::grammar::Productions;
use cfgrammar::yacc::sentences::{check_least, check_reached, min_sentence_over};
use cfgrammar::yacc::{SentenceGenerator, YaccGrammar};
use cfgrammar::{PIdx, TIdx};

/// Writes what a word asks of a grammar's sentences, where each token costs what the word says.
pub(crate) fn write_sentences(page: &mut Page, word: &str, grammar: &YaccGrammar<u32>) {
    match grammar.sentence_generator(page.alloc, |tidx| cost(word, tidx)) {
        Ok(generator) => write_requested(page, word, grammar, &generator),
        Err(_) => page.tear(),
    }
}

/// What a token costs: 255, its index and 1, or else 1.
fn cost(word: &str, tidx: TIdx<u32>) -> u8
    ensures { 0 < result }
{
    match word {
        "costs-of-255" => 255,
        "minimal-by-index" => u8::try_from(tidx.0).unwrap_or(0).saturating_add(1),
        _ => 1,
    }
}

/// Writes what a word asks of a generator.
fn write_requested(
    page: &mut Page,
    word: &str,
    grammar: &YaccGrammar<u32>,
    generator: &SentenceGenerator<'_, u32>,
)
    requires { generator.now.grammar ≡ core grammar.now }
{
    match word {
        "costs" | "costs-of-255" => write_costs(page, grammar, generator),
        "opened" => write_opened(page, grammar, generator),
        "checked" => write_checked(page, grammar, generator.token_costs()),
        "chain" => write_chain(page, grammar, generator),
        _ => write_minimal(page, grammar, generator),
    }
}

/// Writes the least and the greatest cost of each rule.
fn write_costs(page: &mut Page, grammar: &YaccGrammar<u32>, generator: &SentenceGenerator<'_, u32>)
    requires { generator.now.grammar ≡ core grammar.now }
{
    for ridx in grammar.iter_rules() {
        let name = grammar.rule_name_str(ridx);
        let least = generator.min_sentence_cost(ridx);
        let greatest = generator.max_sentence_cost(ridx);
        writeln!(page, "{name}: least {least:?}, greatest {greatest:?}");
    }
}

/// Writes the first minimal sentence of each rule, and all of them.
fn write_minimal(
    page: &mut Page,
    grammar: &YaccGrammar<u32>,
    generator: &SentenceGenerator<'_, u32>,
)
    requires { generator.now.grammar ≡ core grammar.now }
{
    for ridx in grammar.iter_rules() {
        let name = grammar.rule_name_str(ridx);
        let first = generator.min_sentence(page.alloc, ridx);
        let all = generator.min_sentences(page.alloc, ridx);
        writeln!(page, "{name}: {first:?}, all {all:?}");
    }
}

/// Writes how many productions `min_sentence_over` opens in total for each rule.
fn write_opened(page: &mut Page, grammar: &YaccGrammar<u32>, generator: &SentenceGenerator<'_, u32>)
    requires { generator.now.grammar ≡ core grammar.now }
{
    for ridx in grammar.iter_rules() {
        let Ok(mut productions) = grammar.productions(page.alloc) else {
            return page.tear();
        };
        let first = min_sentence_over(page.alloc, &mut productions, generator, ridx);
        let opened = productions.opened_all();
        writeln!(
            page,
            "{}: {first:?}, {opened} opened",
            grammar.rule_name_str(ridx)
        );
    }
}

/// Writes what the two checkers say of lists for a grammar with two rules.
fn write_checked(page: &mut Page, grammar: &YaccGrammar<u32>, costs: &[u8]) {
    let (start, none) = (Some((PIdx(2), 1)), [None, None]);
    for (least, choices) in &[
        ([Some(1), Some(1)], [start, Some((PIdx(1), 0))]),
        ([Some(1), Some(1)], [start, Some((PIdx(0), 0))]),
        ([Some(0), Some(0)], none),
        ([Some(2), Some(1)], none),
        ([Some(1), None], none),
    ] {
        let (is_least, is_reached) = checked(grammar, costs, least, choices);
        writeln!(
            page,
            "least {least:?}: {is_least}, choices {choices:?}: {is_reached}"
        );
    }
}

/// Whether the two checkers are true of lists.
fn checked(
    grammar: &YaccGrammar<u32>,
    costs: &[u8],
    least: &[Option<u16>],
    choices: &[Option<(PIdx<u32>, u32)>],
) -> (bool, bool) {
    if costs.len() != usize::from(grammar.tokens_len())
        || least.len() != usize::from(grammar.rules_len())
    {
        return (false, false);
    }
    let is_reached = choices.len() == least.len() && check_reached(grammar, costs, least, choices);
    (check_least(grammar, costs, least), is_reached)
}

/// Row `hostile`: writes how many rules of a chain cost 1 both ways, the sentences of the first, and whether it leads to
/// the last, and the last to it.
fn write_chain(page: &mut Page, grammar: &YaccGrammar<u32>, generator: &SentenceGenerator<'_, u32>)
    requires { generator.now.grammar ≡ core grammar.now }
{
    let (Some(first), Some(last)) = (grammar.rule_idx("A0"), grammar.rule_idx("A999")) else {
        return page.tear();
    };
    let (mut count, rules) = (0u32, grammar.rules_len().0);
    for ridx in grammar.iter_rules() {
        let costs = (
            generator.min_sentence_cost(ridx),
            generator.max_sentence_cost(ridx),
        );
        count = count.saturating_add(u32::from(matches!(costs, (Ok(1), Ok(Some(1))))));
    }
    let sentences = generator.min_sentences(page.alloc, first);
    let leads = grammar.has_path(page.alloc, first, last);
    let leads_back = grammar.has_path(page.alloc, last, first);
    writeln!(
        page,
        "{count} of {rules} rules cost 1, {sentences:?}, {leads:?}, {leads_back:?}"
    );
}
