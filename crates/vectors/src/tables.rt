//! The numbered tables of a grammar.

use crate::page::Page;
use cfgrammar::Span;
use cfgrammar::yacc::YaccGrammar;

/// Writes a grammar's start, its end token and its programs, and each rule, production and token.
pub(crate) fn write_tables(page: &mut Page, grammar: &YaccGrammar<u32>) {
    let (start, end) = (grammar.start_prod().0, grammar.eof_token_idx().0);
    let programs = grammar.programs();
    writeln!(
        page,
        "start production {start}, end token {end}, programs {programs:?}"
    );
    write_rules(page, grammar);
    write_productions(page, grammar);
    write_tokens(page, grammar);
}

/// Writes each rule: its name, the name's span, and its type.
fn write_rules(page: &mut Page, grammar: &YaccGrammar<u32>) {
    for ridx in grammar.iter_rules() {
        let (number, name) = (ridx.0, grammar.rule_name_str(ridx));
        let (start, end) = ends(grammar.rule_name_span(ridx));
        let actiontype = grammar.actiontype(ridx);
        writeln!(
            page,
            "rule {number} {name} ({start},{end}), type {actiontype:?}"
        );
    }
}

/// Writes each production: its rule, its symbols, its span, its precedence, and its action with the action's span.
fn write_productions(page: &mut Page, grammar: &YaccGrammar<u32>) {
    for pidx in grammar.iter_pidxs() {
        let (number, rule, symbols) = (pidx.0, grammar.prod_to_rule(pidx).0, grammar.prod(pidx));
        let (start, end) = ends(grammar.prod_span(pidx));
        write!(
            page,
            "production {number} of rule {rule} ({start},{end}): {symbols:?}"
        );
        if let Some(precedence) = grammar.prod_precedence(pidx) {
            write!(page, ", level {} {:?}", precedence.level, precedence.kind);
        }
        if let (Some(action), Some(span)) = (grammar.action(pidx), grammar.action_span(pidx)) {
            write!(
                page,
                ", action {action:?} ({},{})",
                span.start(),
                span.end()
            );
        }
        page.write_fmt('\n');
    }
}

/// Writes each token: its name, the name's span, its printed form, and its precedence.
fn write_tokens(page: &mut Page, grammar: &YaccGrammar<u32>) {
    for tidx in grammar.iter_tidxs() {
        let (number, name) = (tidx.0, grammar.token_name(tidx));
        let (printed, precedence) = (grammar.token_epp(tidx), grammar.token_precedence(tidx));
        write!(
            page,
            "token {number} {name:?}, printed {printed:?}, {precedence:?}"
        );
        if let Some(span) = grammar.token_span(tidx) {
            write!(page, " ({},{})", span.start(), span.end());
        }
        page.write_fmt('\n');
    }
}

/// The two ends of a span.
fn ends(span: Span) -> (usize, usize) {
    (span.start(), span.end())
}
