//! FIRST sets, paths, counted openings, and a lexer's names.

ghost use Rattle.std.specs.Prelude.{◌≡◌, ◌<◌, length};

use crate::page::Page;
use cfgrammar::yacc::YaccGrammar;
use cfgrammar::yacc::firsts::{YaccFirsts, firsts_over};
use cfgrammar::yacc::follows::follows_over;
use cfgrammar::yacc::grammar::Productions;
use cfgrammar::{PIdx, RIdx, TIdx};
use lexcheck::check;

/// Writes for each rule to which rules it leads.
pub(crate) fn write_paths(page: &mut Page, grammar: &YaccGrammar<u32>) {
    for ridx in grammar.iter_rules() {
        write_paths_of(page, grammar, ridx);
    }
}

fn write_paths_of(page: &mut Page, grammar: &YaccGrammar<u32>, from: RIdx<u32>)
    requires { from.0 < length grammar.now.rules }
{
    for to in grammar.iter_rules() {
        let (name, other) = (grammar.rule_name_str(from), grammar.rule_name_str(to));
        let leads = grammar.has_path(page.alloc, from, to);
        writeln!(page, "path {name} {other}: {leads:?}");
    }
}

/// Sets a bit of the FIRST sets of a grammar twice, and writes all bits before and after.
pub(crate) fn write_set(page: &mut Page, grammar: &YaccGrammar<u32>) {
    let Ok(mut firsts) = YaccFirsts::new(page.alloc, grammar) else {
        return page.tear();
    };
    let firsts: &mut YaccFirsts<u32> = &mut firsts;
    write_bits(page, grammar, firsts);
    if 1 < grammar.rules_len().0 && 1 < grammar.tokens_len().0 {
        let was_set = firsts.set(RIdx(1), TIdx(1));
        let is_set = firsts.set(RIdx(1), TIdx(1));
        writeln!(page, "set (1,1): {was_set}, again: {is_set}");
    }
    write_bits(page, grammar, firsts);
}

/// Writes the bits of the FIRST set of each rule.
fn write_bits(page: &mut Page, grammar: &YaccGrammar<u32>, firsts: &YaccFirsts<u32>)
    requires { length firsts.now.firsts.rows ≡ length grammar.now.rules }
{
    for ridx in grammar.iter_rules() {
        let (name, is_nullable) = (grammar.rule_name_str(ridx), firsts.is_epsilon_set(ridx));
        writeln!(
            page,
            "first of {name}: {:?}, nullable: {is_nullable}",
            firsts.firsts(ridx)
        );
    }
}

/// Writes how often the loops of the FIRST and the FOLLOW sets open each production.
pub(crate) fn write_openings(page: &mut Page, grammar: &YaccGrammar<u32>) {
    write_of_firsts(page, grammar);
    write_of_follows(page, grammar);
}

fn write_of_firsts(page: &mut Page, grammar: &YaccGrammar<u32>) {
    let Ok(mut productions) = grammar.productions(page.alloc) else {
        return page.tear();
    };
    let is_found = firsts_over(page.alloc, &mut productions).is_ok();
    write_opened(page, "firsts", is_found, &productions);
}

fn write_of_follows(page: &mut Page, grammar: &YaccGrammar<u32>) {
    let (Ok(firsts), Ok(mut productions)) = (
        grammar.firsts(page.alloc),
        grammar.productions(page.alloc),
    ) else {
        return page.tear();
    };
    let is_found = follows_over(page.alloc, &mut productions, &firsts).is_ok();
    write_opened(page, "follows", is_found, &productions);
}

/// Writes how often each production was opened.
fn write_opened<P: Productions<u32>>(page: &mut Page, sets: &str, is_found: bool, productions: &P) {
    write!(page, "{sets}, found: {is_found}, opened:");
    for number in 0..productions.prods_len().0 {
        write!(page, " {}", productions.opened(PIdx(number)));
    }
    page.write_fmt('\n');
}

/// Writes what differs between the tokens and each of three lists of names.
pub(crate) fn write_names(page: &mut Page, grammar: &YaccGrammar<u32>) {
    let lists: [&[&str]; 3] = [&["T", "U"], &[], &["U", "T", "U"]];
    for names in &lists {
        let report = check(page.alloc, grammar, *names);
        writeln!(page, "names {names:?}: {report:?}");
    }
}
