//! Productions of borrowed tables, with their own counts of openings.

ghost use Rattle.std.specs.Prelude.{◌≡◌, ◌^◌, ◌<◌, ◌≤◌, All, length, map, replicate, IfOk};
ghost use Rattle.derivation.specs.Grammar.{Grammar, IsGrammar};
ghost use Rattle.cfgtables.specs.Openings.{ArePositionsOf, nth_production};
ghost use Rattle.cfgtables.specs.NumberedSymbols.{sym_of};

use crate::productions::Productions;
use cfgindex::{PIdx, RIdx, Storage, Symbol, TIdx};
use std::alloc::{AllocError, Global};
use std::marker::Model;

/// The tables of a grammar.
pub trait Tables<S: Storage> {
    // The grammar.
    ghost grammar: { Self → Grammar };

    /// The number of rules. The tables are those of a grammar that `S` can count, including the symbols of each
    /// production.
    fn rules_len(&self) -> RIdx<S>
        ensures value { S.number result.0 ≡ (grammar self.now).rules }
        ensures content { IsGrammar (grammar self.now) }
        ensures fits { All (λ p. length p.symbols ≤ S.MAX) (grammar self.now).productions };

    /// A law, so the call does nothing: the tables are those of a grammar that `S` can count.
    fn invariant_holds(&self)
        ensures content { IsGrammar (grammar self.now) }
        ensures rules { (grammar self.now).rules ≤ S.MAX }
        ensures productions { length (grammar self.now).productions ≤ S.MAX }
        ensures fits { All (λ p. length p.symbols ≤ S.MAX) (grammar self.now).productions }
        ensures limit { S.MAX < 2 ^ 32 }
    {
        let _rules = self.rules_len().0.to_usize();
        let _productions = self.prods_len().0.to_usize();
    }

    /// The number of tokens, including the end token.
    fn tokens_len(&self) -> TIdx<S>
        ensures { S.number result.0 ≡ (grammar self.now).tokens };

    /// The number of productions.
    fn prods_len(&self) -> PIdx<S>
        ensures { S.number result.0 ≡ length (grammar self.now).productions };

    /// The rule that a production belongs to.
    fn prod_to_rule(&self, pidx: PIdx<S>) -> RIdx<S>
        requires { S.number pidx.0 < length (grammar self.now).productions }
        ensures { S.number result.0 ≡ (nth_production (grammar self.now) (S.number pidx.0)).rule };

    /// The productions of a rule.
    fn rule_to_prods(&self, ridx: RIdx<S>) -> &[PIdx<S>]
        requires { S.number ridx.0 < (grammar self.now).rules }
        ensures { ArePositionsOf (grammar self.now) (S.number ridx.0) (map (λ p. S.number p.0) result.now) };

    /// The symbols of a production.
    fn prod(&self, pidx: PIdx<S>) -> &[Symbol<S>]
        requires { S.number pidx.0 < length (grammar self.now).productions }
        ensures { map (sym_of S.number) result.now ≡ (nth_production (grammar self.now) (S.number pidx.0)).symbols };
}

/// The productions of borrowed tables, with a count for each.
#[derive(Drop)]
pub struct CountedTables<'a, S: Storage, T: Tables<S>> {
    tables: &'a T,
    prods_len: PIdx<S>,
    opened: Vec<u64>,
    opened_all: u128,
}

impl<'a, S: Storage, T: Tables<S>> Model for CountedTables<'a, S, T> {
    ghost use Rattle.std.specs.Prelude.{◌≡◌, length};
    ghost use Rattle.cfgtables.specs.Openings.{Counts};

    ghost Value = { Counts };

    ghost view = { λ x. record {
      grammar = T.grammar x.tables.now;
      opened = x.opened.items;
      opened_all = x.opened_all;
    } };

    ghost invariant = { λ x. (length x.opened.items ≡ length (T.grammar x.tables.now).productions)
        × (S.number x.prods_len.0 ≡ length (T.grammar x.tables.now).productions) };
}

impl<'a, S: Storage, T: Tables<S>> CountedTables<'a, S, T> {
    /// The productions of the tables, with no openings counted yet.
    ///
    /// # Errors
    ///
    /// Out of memory.
    pub fn new(alloc: Global, tables: &'a T) -> Result<Self, AllocError>
        ensures { IfOk result (λ x. x ≡ record {
          grammar = T.grammar tables.now;
          opened = replicate (length (T.grammar tables.now).productions) 0;
          opened_all = 0;
        }) }
    {
        let prods_len = tables.prods_len();
        let opened = vec![in alloc; 0; usize::from(prods_len)]?;
        Ok(CountedTables {
            tables,
            prods_len,
            opened,
            opened_all: 0,
        })
    }
}

impl<'a, S: Storage, T: Tables<S>> Productions<S> for CountedTables<'a, S, T> {
    ghost use mir.Syntax.{named};
    ghost use Rattle.std.specs.Prelude.{◌≡◌, ◌-◌, ◌^◌, ◌<◌, [], length, map, slice_index};
    ghost use Rattle.std.specs.Borrow.{sem};
    ghost use Rattle.std.specs.Io.BufRead.{Rests};
    ghost use Rattle.cfgtables.specs.Openings.{nth_production, OpensOne};
    ghost use Rattle.cfgtables.specs.NumberedSymbols.{sym_of};
    ghost use Rattle.cfgtables.specs.contracts.counted.CountedTables.{the_row};

    ghost content = { λ x. x.grammar };

    ghost opened = { λ x p. slice_index x.opened p };

    ghost opened_all = { λ x. x.opened_all };

    fn rules_len(&self) -> RIdx<S> {
        self.tables.rules_len()
    }

    fn tokens_len(&self) -> TIdx<S> {
        self.tables.tokens_len()
    }

    fn prods_len(&self) -> PIdx<S> {
        self.prods_len
    }

    fn rule_of(&self, p: PIdx<S>) -> RIdx<S>
        requires { S.number p.0 < length self.now.grammar.productions }
        ensures { S.number result.0 ≡ (nth_production self.now.grammar (S.number p.0)).rule }
    {
        self.tables.prod_to_rule(p)
    }

    fn opened(&self, p: PIdx<S>) -> u64
        requires { S.number p.0 < length self.now.grammar.productions }
        ensures { result ≡ slice_index self.now.opened (S.number p.0) }
    {
        self.opened[usize::from(p)]
    }

    fn opened_all(&self) -> u128 {
        self.opened_all
    }

    fn open(&mut self, p: PIdx<S>) -> &[Symbol<S>]
        requires in_range { S.number p.0 < length self.old.grammar.productions }
        requires countable { slice_index self.old.opened (S.number p.0) < 2 ^ 64 - 1 }
        requires all_countable { self.old.opened_all < 2 ^ 128 - 1 }
        ensures symbols { map (sym_of S.number) result.now
            ≡ (nth_production self.old.grammar (S.number p.0)).symbols }
        ensures* counts { sem 𝓛 (Rests (the_row
            (record { mir = named 1; lft = [] }) S.row T.row S.Storage.own S.Ord.own S.PartialEq.own S.PartialOrd.own
            S.Hash.own T.Tables.own) self.entry (λ new.
            OpensOne (S.number p.0) self.old.grammar new.grammar (slice_index self.old.opened) (slice_index new.opened)
            self.old.opened_all new.opened_all)) }
    {
        self.opened[usize::from(p)] += 1;
        self.opened_all += 1;
        self.tables.prod(p)
    }
}
