//! The names of symbols in the texts of findings.

ghost use Rattle.std.specs.Prelude.{◌≡◌};
ghost use Rattle.cfgrammar.specs.Accessors.{IsSymbolWithin, sym_name};
ghost use Rattle.cfgrammar.specs.NumberedSymbols.{sym_of};

use cfgrammar::Symbol;
use cfgrammar::yacc::YaccGrammar;

/// The name of a rule or a token. The end token has none, which is the empty one here.
pub fn symbol_name(grammar: &YaccGrammar<u32>, symbol: Symbol<u32>) -> &str
    requires { IsSymbolWithin (λ s. s) grammar.now symbol }
    ensures { result.now ≡ sym_name grammar.now (sym_of (λ s. s) symbol) }
{
    match symbol {
        Symbol::Rule(rule) => grammar.rule_name_str(rule),
        Symbol::Token(token) => grammar.token_name(token).unwrap_or(""),
    }
}
