//! Symbols, productions and items as findings and states show them: names with escapes for what could control a
//! terminal.

ghost use Rattle.std.specs.Prelude.{◌≡◌, ◌++◌, ◌<◌, ◌≤◌, All, OnOk, codes, length, map, string_bytes};
ghost use Rattle.cfgrammar.specs.Accessors.{IsSymbolWithin};
ghost use Rattle.cfgrammar.specs.Numbered.{core};
ghost use Rattle.cfgrammar.specs.NumberedSymbols.{sym_of};
ghost use Rattle.cfgrammar.specs.Openings.{nth_production};
ghost use Rattle.bison_findings.specs.Shown.{item_text, production_text, symbols_text, token_text};
ghost use Rattle.text_findings.specs.Named.{rule_name};

use cfgrammar::storage::to_storage;
use cfgrammar::yacc::YaccGrammar;
use cfgrammar::{RIdx, Symbol, TIdx, Visible};
use lr_states::Item;
use lr_states::tables::{rule_of, symbols_of};
use std::alloc::AllocError;
use text_findings::symbol_name;

/// Writes a token's name in quotes; the end token has none.
pub(crate) fn write_token(
    text: &mut String,
    grammar: &YaccGrammar<u32>,
    token: usize,
) -> Result<(), AllocError>
    requires { token < length grammar.now.tokens }
    ensures { OnOk result (string_bytes text.new ≡ string_bytes text.old ++ token_text grammar.now token) }
{
    grammar.invariant_holds();
    let token = TIdx(to_storage(token));
    if token == grammar.eof_token_idx() {
        return text.push_str("the end of the text");
    }
    let name = grammar.token_name(token).unwrap_or("");
    write!(text, "'{}'", Visible(name))
}

/// Writes a production: its rule and its symbols.
pub(crate) fn write_production(
    text: &mut String,
    grammar: &YaccGrammar<u32>,
    production: usize,
) -> Result<(), AllocError>
    requires { production < length grammar.now.productions }
    ensures { OnOk result (string_bytes text.new ≡ string_bytes text.old ++ production_text grammar.now production) }
{
    write!(text, "{}:", Visible(owner_name(grammar, production)))?;
    write_symbols(text, grammar, symbols_of(grammar, production))
}

/// Writes a production with a dot before what isn't read.
pub(crate) fn write_item(
    text: &mut String,
    grammar: &YaccGrammar<u32>,
    item: Item,
) -> Result<(), AllocError>
    requires within { item.production < length grammar.now.productions }
    requires read { item.read ≤ length (nth_production (core grammar.now) item.production).symbols }
    ensures { OnOk result (string_bytes text.new ≡ string_bytes text.old ++ item_text grammar.now item) }
{
    let (read, rest) = symbols_of(grammar, item.production).split_at(item.read);
    write!(text, "{}:", Visible(owner_name(grammar, item.production)))?;
    write_dotted(text, grammar, read, rest)
}

/// Writes the names of symbols, with a dot before those of the rest.
pub(crate) fn write_dotted(
    text: &mut String,
    grammar: &YaccGrammar<u32>,
    read: &[Symbol<u32>],
    rest: &[Symbol<u32>],
) -> Result<(), AllocError>
    requires read { All (IsSymbolWithin (λ s. s) grammar.now) read.now }
    requires rest { All (IsSymbolWithin (λ s. s) grammar.now) rest.now }
    ensures { OnOk result (string_bytes text.new ≡ string_bytes text.old
        ++ (symbols_text grammar.now (map (sym_of (λ s. s)) read.now)
        ++ (codes " ." ++ symbols_text grammar.now (map (sym_of (λ s. s)) rest.now)))) }
{
    write_symbols(text, grammar, read)?;
    text.push_str(" .")?;
    write_symbols(text, grammar, rest)
}

/// The name of a production's rule.
fn owner_name(grammar: &YaccGrammar<u32>, production: usize) -> &str
    requires { production < length grammar.now.productions }
    ensures { result.now ≡ rule_name grammar.now (nth_production (core grammar.now) production).rule }
{
    grammar.invariant_holds();
    grammar.rule_name_str(RIdx(to_storage(rule_of(grammar, production))))
}

/// Writes the names of symbols, each after a blank.
pub(crate) fn write_symbols(
    text: &mut String,
    grammar: &YaccGrammar<u32>,
    symbols: &[Symbol<u32>],
) -> Result<(), AllocError>
    requires { All (IsSymbolWithin (λ s. s) grammar.now) symbols.now }
    ensures { OnOk result (string_bytes text.new
        ≡ string_bytes text.old ++ symbols_text grammar.now (map (sym_of (λ s. s)) symbols.now)) }
{
    for symbol in symbols {
        write!(text, " {}", Visible(symbol_name(grammar, *symbol)))?;
    }
    Ok(())
}
