//! The symbols of productions, by index.

ghost use Rattle.std.specs.Prelude.{◌≡◌, ◌+◌, ◌≤◌, ◌++◌, ◌∷◌, [], true, All, None, Some, map, option_map, slice_get};
ghost use Rattle.std.specs.Prelude.{IfOk, OnOk};
ghost use Rattle.cfgitems.specs.Building.{has_name, has_rule};
ghost use Rattle.cfgitems.specs.SyntaxView.{symbol_view};
ghost use Rattle.cfgast.specs.Check.{symbol_error};
ghost use Rattle.cfgnumbers.specs.Fits.{LeavesRoom};
ghost use Rattle.cfgnumbers.specs.Numbered.{rule_index, rules_before, token_index, file_symbol, file_symbols, spaced};
ghost use Rattle.cfgnumbers.specs.Numbered.{start_symbols, last_token, token_in};
ghost use Rattle.cfgnumbers.specs.Resolved.{IsResolved};
ghost use Rattle.cfgnumbers.specs.TablesView.{file_of, implicit_in};
ghost use Rattle.cfgtables.specs.NumberedSymbols.{sym_of};

use super::Numbering;
use cfgindex::{RIdx, Storage, Symbol, TIdx, to_storage};
use std::alloc::AllocError;

impl Numbering<'_> {
    /// Replaces the content of `numbered` by the symbols of a production of the file. If there are implicit tokens, the
    /// rule for these follows each token. The result is the last token of the production, if it has one.
    pub(super) fn number_symbols<S: Storage>(
        &self,
        numbered: &mut Vec<Symbol<S>>,
        symbols: &[cfgitems::Symbol],
    ) -> Result<Option<TIdx<S>>, AllocError>
        requires known { All (λ symbol. symbol_error (file_of self.now) symbol ≡ None)
            (map symbol_view symbols.now) }
        requires room { LeavesRoom S.MAX (implicit_in self.now) (file_of self.now) }
        ensures symbols { OnOk result (map (sym_of S.number) numbered.new.items
            ≡ file_symbols (implicit_in self.now) (file_of self.now) (map symbol_view symbols.now)) }
        ensures last { IfOk result (λ last.
            option_map (λ token. slice_get (file_of self.now).tokens (S.number token.0)) last
            ≡ option_map Some (last_token (map symbol_view symbols.now))) }
    {
        numbered.clear();
        let mut last = None;
        for symbol in symbols {
            let token = self.push_symbol(numbered, symbol)?;
            last = token.or(last);
        }
        Ok(last)
    }

    /// Adds a symbol of the file to those that are numbered. The result is its index, if it is a token.
    fn push_symbol<S: Storage>(
        &self,
        numbered: &mut Vec<Symbol<S>>,
        symbol: &cfgitems::Symbol,
    ) -> Result<Option<TIdx<S>>, AllocError>
        requires known { symbol_error (file_of self.now) (symbol_view symbol.now) ≡ None }
        requires room { LeavesRoom S.MAX (implicit_in self.now) (file_of self.now) }
        ensures symbols { OnOk result (map (sym_of S.number) numbered.new.items
            ≡ map (sym_of S.number) numbered.old.items
            ++ spaced (implicit_in self.now)
            (file_symbol (implicit_in self.now) (file_of self.now) (symbol_view symbol.now))) }
        ensures token { IfOk result (λ token.
            option_map (λ token. slice_get (file_of self.now).tokens (S.number token.0)) token
            ≡ option_map Some (token_in (symbol_view symbol.now))) }
    {
        match symbol {
            cfgitems::Symbol::Rule(name, _) => {
                numbered.push(Symbol::Rule(self.rule_of(name.as_str())))?;
                Ok(None)
            }
            cfgitems::Symbol::Token(name, _) => {
                let token = self.token_of(name.as_str());
                numbered.push(Symbol::Token(token))?;
                if let Some(rule) = self.implicit_rule() {
                    numbered.push(Symbol::Rule(rule))?;
                }
                Ok(Some(token))
            }
        }
    }

    /// The rule that the file starts from.
    pub(super) fn start_symbol<S: Storage>(&self) -> Symbol<S>
        requires resolved { IsResolved (file_of self.now) }
        requires room { LeavesRoom S.MAX (implicit_in self.now) (file_of self.now) }
        ensures { start_symbols (implicit_in self.now) (file_of self.now) ≡ sym_of S.number result ∷ [] }
    {
        let (name, _) = self.ast.start().as_ref().unwrap();
        Symbol::Rule(self.rule_of(name.as_str()))
    }

    /// The rule with this name.
    fn rule_of<S: Storage>(&self, name: &str) -> RIdx<S>
        requires known { has_rule name.now (file_of self.now).rules ≡ true }
        requires room { LeavesRoom S.MAX (implicit_in self.now) (file_of self.now) }
        ensures { S.number result.0 ≡ rule_index (implicit_in self.now) (file_of self.now) name.now }
    {
        self.rule_at(self.ast.rules().get_index_of(name).unwrap())
    }

    /// The rule with this index in the file.
    pub(super) fn rule_at<S: Storage>(&self, index: usize) -> RIdx<S>
        requires { rules_before (implicit_in self.now) + index ≤ S.MAX }
        ensures { S.number result.0 ≡ rules_before (implicit_in self.now) + index }
    {
        prove!(index <= S::MAX);
        RIdx(to_storage(self.rules_before() + index))
    }

    /// The token with this name.
    pub(super) fn token_of<S: Storage>(&self, name: &str) -> TIdx<S>
        requires known { has_name name.now (file_of self.now).tokens ≡ true }
        requires room { LeavesRoom S.MAX (implicit_in self.now) (file_of self.now) }
        ensures index { S.number result.0 ≡ token_index (file_of self.now) name.now }
        ensures name { slice_get (file_of self.now).tokens (S.number result.0) ≡ Some name.now }
    {
        let index = self.ast.tokens().get_index_of(name).unwrap();
        TIdx(to_storage(index))
    }
}
