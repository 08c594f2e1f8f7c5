//! The tokens of a rule's set, as they are written.

ghost use Rattle.std.specs.Prelude.{◌≡◌, ◌↔◌, ◌++◌, ◌<◌, ℕ, Bool, length, IsTrue, OnOk};
ghost use Rattle.std.specs.Prelude.{string_bytes};
ghost use Rattle.std.specs.List.{enumerate_from, flat_map};
ghost use Rattle.cfgrammar.specs.Table.{bit};
ghost use Rattle.cfgrammar.specs.Accessors.{token_part};
ghost use Rattle.cfgtool.specs.TokenSets.{Adds, set_word};

use cfgrammar::yacc::YaccGrammar;
use cfgrammar::yacc::firsts::YaccFirsts;
use cfgrammar::yacc::follows::YaccFollows;
use cfgrammar::{RIdx, TIdx};
use std::alloc::AllocError;

/// Sets of tokens, one for each rule.
pub trait TokenSets {
    // Whether a rule's set has a token.
    ghost among: { Self → ℕ → ℕ → Bool };

    /// Whether the rule's set has the token.
    fn has(&self, ridx: RIdx<u32>, tidx: TIdx<u32>) -> bool
        ensures { IsTrue result ↔ IsTrue (among self.now ridx.0 tidx.0) };
}

impl TokenSets for YaccFirsts<u32> {
    ghost among = { λ x. bit x.firsts };

    fn has(&self, ridx: RIdx<u32>, tidx: TIdx<u32>) -> bool {
        self.is_set(ridx, tidx)
    }
}

impl TokenSets for YaccFollows<u32> {
    ghost among = { bit };

    fn has(&self, ridx: RIdx<u32>, tidx: TIdx<u32>) -> bool {
        self.is_set(ridx, tidx)
    }
}

/// Writes the tokens of a rule's set by name; the end token, which has no name, is written as `end`.
pub fn write_tokens<T: TokenSets>(
    lines: &mut String,
    grammar: &YaccGrammar<u32>,
    sets: &T,
    ridx: RIdx<u32>,
    end: &str,
) -> Result<(), AllocError>
    ensures { OnOk result (string_bytes lines.new
        ≡ string_bytes lines.old ++ flat_map (set_word end.now (T.among sets.now ridx.0))
        (enumerate_from 0 grammar.now.tokens)) }
{
    for tidx in grammar.iter_tidxs() {
        write_token(lines, grammar, sets, ridx, tidx, end)?;
    }
    Ok(())
}

/// Writes a token, if the rule's set has it.
fn write_token<T: TokenSets>(
    lines: &mut String,
    grammar: &YaccGrammar<u32>,
    sets: &T,
    ridx: RIdx<u32>,
    tidx: TIdx<u32>,
    end: &str,
) -> Result<(), AllocError>
    requires { tidx.0 < length grammar.now.tokens }
    ensures { OnOk result (Adds (token_part
        (λ token. set_word end.now (T.among sets.now ridx.0) (tidx.0, token)) grammar.now tidx.0)
        (string_bytes lines.old) (string_bytes lines.new)) }
{
    if !sets.has(ridx, tidx) {
        return Ok(());
    }
    match grammar.token_name(tidx) {
        Some(name) => write!(lines, " \"{name}\""),
        None => lines.push_str(end),
    }
}
