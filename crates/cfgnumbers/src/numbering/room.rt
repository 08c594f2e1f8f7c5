//! Whether an index type can count all that a grammar will have, including what is added to the file's.

ghost use Rattle.std.specs.Prelude.{◌≡◌, ◌↔◌, ◌+◌, ◌≤◌, ◌<◌, All, length, map, IsTrue};
ghost use Rattle.cfgitems.specs.SyntaxView.{symbol_view};
ghost use Rattle.cfgnumbers.specs.Fits.{LeavesRoom, productions_after};
ghost use Rattle.cfgnumbers.specs.Numbered.{rules_before, spaced, file_symbol, file_symbols};
ghost use Rattle.cfgnumbers.specs.TablesView.{file_of, implicit_in};

use super::Numbering;
use cfgindex::Storage;
use cfgitems::{Production, Symbol};

impl Numbering<'_> {
    /// Whether the index type can count the rules, tokens and productions of the numbered grammar, and the symbols of
    /// each production. In an Eco file with implicit tokens, three rules come before the file's, and each token of a
    /// production counts twice, since a rule follows it.
    pub fn fits<S: Storage>(&self) -> bool
        ensures { IsTrue result ↔ LeavesRoom S.MAX (implicit_in self.now) (file_of self.now) }
    {
        self.counts_fit::<S>() && self.all_symbols_fit::<S>(self.ast.prods())
    }

    /// Whether it can count the rules, tokens and productions.
    fn counts_fit<S: Storage>(&self) -> bool
        ensures { IsTrue result
            ↔ ((rules_before (implicit_in self.now) + length (file_of self.now).rules ≤ S.MAX)
            × (length (file_of self.now).tokens < S.MAX)
            × (length (file_of self.now).productions + productions_after (implicit_in self.now) ≤ S.MAX)) }
    {
        let after = match self.implicit {
            Some(tokens) => tokens.len() + 3,
            None => 1,
        };
        leaves_room::<S>(self.ast.rules().len(), self.rules_before())
            && leaves_room::<S>(self.ast.tokens().len(), 1)
            && leaves_room::<S>(self.ast.prods().len(), after)
    }

    /// Whether it can count the symbols of each of these productions.
    fn all_symbols_fit<S: Storage>(&self, productions: &[Production]) -> bool
        ensures { IsTrue result
            ↔ All (λ production. length (file_symbols (implicit_in self.now) (file_of self.now)
            (map symbol_view production.symbols.items)) ≤ S.MAX) productions.now }
    {
        for production in productions {
            if !self.symbols_fit::<S>(&production.symbols) {
                return false;
            }
        }
        true
    }

    /// Whether it can count these symbols, with the rules that follow tokens.
    fn symbols_fit<S: Storage>(&self, symbols: &[Symbol]) -> bool
        ensures { IsTrue result ↔ (length
            (file_symbols (implicit_in self.now) (file_of self.now) (map symbol_view symbols.now)) ≤ S.MAX) }
    {
        let mut left = S::MAX;
        for symbol in symbols {
            let width = self.width(symbol);
            if left < width {
                return false;
            }
            left -= width;
        }
        true
    }

    /// How many symbols of the numbered grammar a symbol of the file gives.
    fn width(&self, symbol: &Symbol) -> usize
        ensures { result ≡ length (spaced (implicit_in self.now)
            (file_symbol (implicit_in self.now) (file_of self.now) (symbol_view symbol.now))) }
    {
        match (symbol, self.implicit) {
            (Symbol::Token(_, _), Some(_)) => 2,
            (Symbol::Token(_, _), None) | (Symbol::Rule(_, _), _) => 1,
        }
    }
}

/// Whether the index type can count this many, and those that are added.
fn leaves_room<S: Storage>(count: usize, added: usize) -> bool
    ensures { IsTrue result ↔ (count + added ≤ S.MAX) }
{
    match S::MAX.checked_sub(count) {
        Some(left) => added <= left,
        None => false,
    }
}
