//! Rules that a grammar has in addition to those of its file.

ghost use Rattle.std.specs.Prelude.{◌≡◌};
ghost use Rattle.cfgfindings.specs.Findings.{rules_added as added};

use cfgrammar::yacc::YaccGrammar;

/// How many rules come before those of the file.
pub(crate) fn rules_added(grammar: &YaccGrammar<u32>) -> usize
    ensures { result ≡ added grammar.now }
{
    match grammar.implicit_rule() {
        Some(_) => 3,
        None => 1,
    }
}
