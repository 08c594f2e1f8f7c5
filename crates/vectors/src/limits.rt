//! Rows `u8-rules` and `hostile`: texts that just fit an index type, and texts that are one past it.

use crate::made::{Shown, show};
use crate::page::Page;
use crate::rows::{Word, kind_named, write_word};
use cfgrammar::yacc::YaccGrammar;

/// The row, the kind of the text, how it begins, what is repeated in it, its end, and how often that fits.
const LIMITS: [(&str, &str, &str, &str, &str, usize); 5] = [
    (
        "u8-rules",
        "original-genericparsetree",
        "%% ",
        "r#: ; ",
        "",
        254,
    ),
    (
        "hostile-tokens",
        "original-genericparsetree",
        "%token",
        " t#",
        " %% A: ;",
        254,
    ),
    (
        "hostile-productions",
        "original-genericparsetree",
        "%% A: ",
        "| ",
        ";",
        253,
    ),
    (
        "hostile-symbols",
        "original-genericparsetree",
        "%% A: ",
        "'x' ",
        ";",
        255,
    ),
    (
        "hostile-implicit-tokens",
        "eco",
        "%implicit_tokens w\n%% A: ",
        "'x' ",
        ";",
        127,
    ),
];

/// Writes what is made over `u8` of the texts at each limit, and of those one past it.
pub(crate) fn write_limits(page: &mut Page) {
    for limit in &LIMITS {
        write_limit(page, *limit, 0);
        write_limit(page, *limit, 1);
    }
}

/// Writes what is made of a text in which so many more are repeated than fit.
fn write_limit(
    page: &mut Page,
    (row, kind, before, repeated, after, most): (&str, &str, &str, &str, &str, usize),
    more: usize,
) {
    let count = most.saturating_add(more);
    let text = text_of(page, before, (repeated, count), after);
    writeln!(
        page,
        "\n== {row}\n{before}{repeated}{after}\n-- repeated {count} times"
    );
    match text.text() {
        Ok(text) => write_narrow(page, kind, text),
        Err(_) => page.tear(),
    }
}

/// A text in which something is repeated.
fn text_of(page: &Page, before: &str, (repeated, count): (&str, usize), after: &str) -> Page {
    let mut text = Page::new(page.alloc);
    write!(text, "{before}");
    text.write_times(repeated, count);
    write!(text, "{after}");
    text
}

/// Writes the costs and the paths of a chain of 1,000 rules.
pub(crate) fn write_chain(page: &mut Page) {
    let text = text_of(page, "%% A0: ", ("A#; A#: ", 999), "'x';");
    writeln!(
        page,
        "\n== hostile-chain\nA0: A1; up to A998: A999; A999: 'x';"
    );
    match text.text() {
        Ok(text) => write_word(
            page,
            "original-genericparsetree",
            Word {
                word: "chain",
                text,
            },
        ),
        Err(_) => page.tear(),
    }
}

/// Writes what is made over `u8` of a text.
fn write_narrow(page: &mut Page, kind: &str, text: &str) {
    if let Some(kind) = kind_named(kind) {
        let grammar = YaccGrammar::<u8>::new_with_storaget(page.alloc, kind, text);
        show(
            page,
            &Word {
                word: "lengths",
                text,
            },
            grammar,
        );
    }
}

impl Shown<YaccGrammar<u8>> for Word<'_> {
    fn show(&self, page: &mut Page, grammar: &mut YaccGrammar<u8>) {
        let (rules, tokens) = (grammar.rules_len().0, grammar.tokens_len().0);
        let (prods, mut longest) = (grammar.prods_len().0, 0);
        for pidx in grammar.iter_pidxs() {
            longest = longest.max(grammar.prod_len(pidx).0);
        }
        writeln!(
            page,
            "{rules} rules, {tokens} tokens, {prods} productions of up to {longest} symbols"
        );
    }
}
