//! The table of an LL(1) parser.

use cfgrammar::yacc::YaccGrammar;
use cfgrammar::yacc::firsts::YaccFirsts;
use cfgrammar::yacc::follows::YaccFollows;
use cfgrammar::{RIdx, Symbol, TIdx};
use std::alloc::{AllocError, Global};

/// The table of an LL(1) parser: each production, and the tokens at which the parser uses it.
///
/// # Errors
///
/// Out of memory.
pub fn print_table(
    alloc: Global,
    grammar: &YaccGrammar<u32>,
    sets: (&YaccFirsts<u32>, &YaccFollows<u32>),
) -> Result<String, AllocError> {
    let mut table = String::new(alloc);
    for pidx in grammar.iter_pidxs() {
        write!(table, "{} at", grammar.pp_prod(alloc, pidx)?)?;
        for tidx in grammar.iter_tidxs() {
            if is_taken(sets, grammar.prod_to_rule(pidx), grammar.prod(pidx), tidx) {
                write!(table, " {}", grammar.token_epp(tidx).unwrap_or("%end"))?;
            }
        }
        table.push('\n')?;
    }
    Ok(table)
}

/// Whether the parser uses the rule's production with these symbols at the token.
fn is_taken(
    (firsts, follows): (&YaccFirsts<u32>, &YaccFollows<u32>),
    rule: RIdx<u32>,
    symbols: &[Symbol<u32>],
    token: TIdx<u32>,
) -> bool {
    for symbol in symbols {
        match *symbol {
            Symbol::Token(tidx) => return tidx == token,
            Symbol::Rule(ridx) if firsts.is_set(ridx, token) => return true,
            Symbol::Rule(ridx) if !firsts.is_epsilon_set(ridx) => return false,
            Symbol::Rule(_) => {}
        }
    }
    follows.is_set(rule, token)
}
