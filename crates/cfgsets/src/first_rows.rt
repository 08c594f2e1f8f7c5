//! FIRST sets that were found before, as FOLLOW reads them.

ghost use Rattle.std.specs.Prelude.{◌≡◌, ◌<◌, length};
ghost use Rattle.cfgtables.specs.NumberedSymbols.{sym_of};
ghost use Rattle.cfgsets.specs.FirstSets.{is_nullable_symbol};
ghost use Rattle.cfgsets.specs.Table.{row_of};

use cfgindex::{RIdx, Storage, Symbol, Vob};
use std::marker::{Model, PhantomData};

/// For each rule, the tokens that it begins with, as a bit for each token, and whether it is nullable.
#[derive(Drop)]
pub struct FirstRows<'a, S: Storage> {
    tokens: usize,
    rows: &'a [Vob],
    nullable: &'a Vob,
    storage: PhantomData<S>,
}

impl<'a, S: Storage> Model for FirstRows<'a, S> {
    ghost use Rattle.cfgsets.specs.FirstSets.{FirstSets};

    ghost Value = { FirstSets };

    ghost view = { λ x. record {
      firsts = record { columns = x.tokens; rows = x.rows.now };
      nullable = x.nullable.now;
    } };
}

impl<'a, S: Storage> FirstRows<'a, S> {
    /// These bits of each rule, one for each token, and a bit for each rule that says whether it is nullable.
    pub fn new(tokens: usize, rows: &'a [Vob], nullable: &'a Vob) -> Self
        ensures { result ≡ record {
          firsts = record { columns = tokens; rows = rows.now };
          nullable = nullable.now;
        } }
    {
        FirstRows {
            tokens,
            rows,
            nullable,
            storage: PhantomData,
        }
    }

    /// The tokens that the rule begins with, as a bit for each token.
    pub fn firsts(&self, rule: RIdx<S>) -> &Vob
        requires { S.number rule.0 < length self.now.firsts.rows }
        ensures { result.now ≡ row_of self.now.firsts (S.number rule.0) }
    {
        &self.rows[rule.0.to_usize()]
    }

    /// Whether the symbol is a nullable rule.
    pub fn is_nullable_symbol(&self, symbol: Symbol<S>) -> bool
        ensures { result ≡ is_nullable_symbol self.now (sym_of S.number symbol) }
    {
        match symbol {
            Symbol::Rule(rule) => self.nullable.get(usize::from(rule)).unwrap_or(false),
            Symbol::Token(_) => false,
        }
    }
}
