//! What is read of a text: its kind, its errors, its warnings and its symbols.

use crate::made::{Shown, show};
use crate::page::Page;
use crate::rows::Word;
use crate::starts::write_starts;
use crate::uses::findings::show_findings;
use cfgrammar::yacc::ast::{ASTWithValidityInfo, GrammarAST};
use cfgrammar::yacc::{YaccGrammar, YaccGrammarError};
use cfgrammar::{Span, Spanned};

impl Shown<ASTWithValidityInfo> for Word<'_> {
    fn show(&self, page: &mut Page, parsed: &mut ASTWithValidityInfo) {
        match self.word {
            "symbols" => write_symbols(page, parsed.ast()),
            "starts" => write_starts(page, parsed),
            "show_findings" => write_findings(page, self.text, parsed),
            _ => write_read(page, parsed),
        }
    }
}

/// Writes the kind, the errors and the warnings of what was read.
fn write_read(page: &mut Page, parsed: &ASTWithValidityInfo) {
    let (kind, is_valid) = (parsed.yacc_kind(), parsed.is_valid());
    writeln!(page, "{kind:?}, valid: {is_valid}");
    write_errors(page, parsed.errors());
    write_warnings(page, parsed.ast());
}

/// Writes each error's kind and spans.
pub(crate) fn write_errors(page: &mut Page, errors: &[YaccGrammarError]) {
    for error in errors {
        write!(page, "{:?}", error.kind());
        write_spans(page, error.spans());
    }
}

/// Writes each warning's kind and spans.
pub(crate) fn write_warnings(page: &mut Page, ast: &GrammarAST) {
    match ast.warnings(page.alloc) {
        Ok(warnings) => {
            for warning in &warnings {
                write!(page, "{:?}", warning.kind());
                write_spans(page, warning.spans());
            }
        }
        Err(_) => page.tear(),
    }
}

/// Writes spans, and ends the line.
pub(crate) fn write_spans(page: &mut Page, spans: &[Span]) {
    for span in spans {
        write!(page, " ({},{})", span.start(), span.end());
    }
    page.write_fmt('\n');
}

/// Writes the symbols of each production, with their spans.
fn write_symbols(page: &mut Page, ast: &GrammarAST) {
    for production in ast.prods() {
        writeln!(page, "{:?}", production.symbols);
    }
}

/// Writes the findings about the grammar of what was read.
fn write_findings(page: &mut Page, text: &str, parsed: &ASTWithValidityInfo) {
    let grammar = YaccGrammar::<u32>::new_from_ast_with_validity_info(page.alloc, parsed);
    show(page, &Findings { text, parsed }, grammar);
}

/// What was read of a text whose findings are shown.
#[derive(Drop)]
struct Findings<'a> {
    text: &'a str,
    parsed: &'a ASTWithValidityInfo,
}

impl Shown<YaccGrammar<u32>> for Findings<'_> {
    fn show(&self, page: &mut Page, grammar: &mut YaccGrammar<u32>) {
        let made = (self.parsed.ast(), &*grammar);
        let shown = show_findings(page.alloc, "list.y", self.text, made);
        page.write_made(shown);
    }
}
