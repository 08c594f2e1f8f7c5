//! A production as text.

ghost use Rattle.std.specs.Prelude.{◌≡◌, ◌<◌, ◌++◌, ℕ, All, IfOk, List, OnErr, OnOk, Some, codes, length, map};
ghost use Rattle.std.specs.List.{concat};
ghost use Rattle.std.specs.String.{string_bytes};
ghost use Rattle.cfgnumbers.specs.Accessors.{IsSymbolWithin, production_part, production_text, sym_name, sym_text};
ghost use Rattle.cfgtables.specs.NumberedSymbols.{sym_of};

use super::tables::YaccGrammar;
use cfgindex::{PIdx, Storage, Symbol};
use std::alloc::{AllocError, Global};

impl<S: Storage> YaccGrammar<S> {
    /// A production as text: the rule's name and a colon, and for each symbol a space and the name in double quotes.
    pub fn pp_prod(&self, alloc: Global, pidx: PIdx<S>) -> Result<String, AllocError>
        requires { S.number pidx.0 < length self.now.productions }
        ensures { IfOk result (λ text. production_part (production_text self.now) self.now (S.number pidx.0)
            ≡ Some (string_bytes text)) }
    {
        let rule = self.rule_name_str(self.prod_to_rule(pidx));
        let symbols = self.prod(pidx);
        let mut text = String::with_capacity(alloc, self.printed_len(rule, symbols))?;
        self.push_prod(&mut text, pidx)?;
        Ok(text)
    }

    /// Appends the text of a production, as [`pp_prod`](Self::pp_prod) returns it.
    ///
    /// # Errors
    ///
    /// Out of memory. The text is as it was.
    pub fn push_prod(&self, text: &mut String, pidx: PIdx<S>) -> Result<(), AllocError>
        requires { S.number pidx.0 < length self.now.productions }
        ensures added { OnOk result ((shown : List ℕ)
            × (production_part (production_text self.now) self.now (S.number pidx.0) ≡ Some shown)
            × (string_bytes text.new ≡ string_bytes text.old ++ shown)) }
        ensures unchanged { OnErr result (string_bytes text.new ≡ string_bytes text.old) }
    {
        let known = text.len();
        let rule = self.rule_name_str(self.prod_to_rule(pidx));
        let symbols = self.prod(pidx);
        if let Err(error) = self.push_parts(text, rule, symbols) {
            text.truncate(known);
            return Err(error);
        }
        Ok(())
    }

    /// Appends a rule's name, a colon and symbols. If memory runs out, some of that may be in the text.
    fn push_parts(
        &self,
        text: &mut String,
        rule: &str,
        symbols: &[Symbol<S>],
    ) -> Result<(), AllocError>
        requires { All (IsSymbolWithin S.number self.now) symbols.now }
        ensures added { OnOk result (string_bytes text.new ≡ string_bytes text.old
            ++ (rule.now ++ (codes ":" ++ concat (map (sym_text self.now) (map (sym_of S.number) symbols.now))))) }
        ensures kept { OnErr result ((part : List ℕ) × (string_bytes text.new ≡ string_bytes text.old ++ part)) }
    {
        text.push_str(rule)?;
        text.push_str(":")?;
        for symbol in symbols {
            self.push_symbol(text, *symbol)?;
        }
        Ok(())
    }

    /// Appends a space and a symbol's name in double quotes. If memory runs out, some of that may be in the text.
    fn push_symbol(&self, text: &mut String, symbol: Symbol<S>) -> Result<(), AllocError>
        requires { IsSymbolWithin S.number self.now symbol }
        ensures added { OnOk result (string_bytes text.new
            ≡ string_bytes text.old ++ sym_text self.now (sym_of S.number symbol)) }
        ensures kept { OnErr result ((part : List ℕ) × (string_bytes text.new ≡ string_bytes text.old ++ part)) }
    {
        text.push_str(" \"")?;
        text.push_str(self.symbol_name(symbol))?;
        text.push_str("\"")?;
        Ok(())
    }

    /// How much room to reserve for the text of a production: its length, unless a `usize` can't count it.
    fn printed_len(&self, rule: &str, symbols: &[Symbol<S>]) -> usize
        requires { All (IsSymbolWithin S.number self.now) symbols.now }
    {
        let mut len = rule.len().saturating_add(1);
        for symbol in symbols {
            let name = self.symbol_name(*symbol);
            len = len.saturating_add(name.len()).saturating_add(3);
        }
        len
    }

    /// The name of a symbol of a production.
    fn symbol_name(&self, symbol: Symbol<S>) -> &str
        requires { IsSymbolWithin S.number self.now symbol }
        ensures { sym_name self.now (sym_of S.number symbol) ≡ result.now }
    {
        match symbol {
            Symbol::Rule(ridx) => self.rule_name_str(ridx),
            Symbol::Token(tidx) => self.token_name(tidx).unwrap(),
        }
    }
}
