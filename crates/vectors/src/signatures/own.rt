//! The traits that users implement: productions, sinks and sources of their own.

ghost use Rattle.std.specs.Prelude.{◌≡◌, ◌^◌, ◌<◌, length, map};
ghost use Rattle.cfgrammar.specs.Openings.{nth_production};
ghost use Rattle.cfgrammar.specs.NumberedSymbols.{sym_of};

use cfgrammar::yacc::grammar::{Productions, Tables};
use cfgrammar::{PIdx, RIdx, Storage, Symbol, TIdx};
use cfgtool::{Input, Sink, SinkFault, Source};
use std::marker::Model;

/// The productions of tables, counted by their caller.
#[derive(Drop)]
pub struct OwnProductions<'a, S: Storage, T: Tables<S>> {
    tables: &'a T,
    prods_len: PIdx<S>,
    opened: Vec<u64>,
    opened_all: u128,
}

impl<'a, S: Storage, T: Tables<S>> Model for OwnProductions<'a, S, T> {
    ghost use Rattle.std.specs.Prelude.{◌≡◌, length};
    ghost use Rattle.cfgrammar.specs.Openings.{Counts};

    ghost Value = { Counts };

    ghost view = { λ x. record {
      grammar = T.grammar x.tables.now;
      opened = x.opened.items;
      opened_all = x.opened_all;
    } };

    ghost invariant = { λ x. (length x.opened.items ≡ length (T.grammar x.tables.now).productions)
        × (S.number x.prods_len.0 ≡ length (T.grammar x.tables.now).productions) };
}

impl<'a, S: Storage, T: Tables<S>> Productions<S> for OwnProductions<'a, S, T> {
    ghost use mir.Syntax.{named};
    ghost use Rattle.std.specs.Prelude.{◌≡◌, ◌-◌, ◌^◌, ◌<◌, [], length, map, slice_index};
    ghost use Rattle.std.specs.Borrow.{sem};
    ghost use Rattle.std.specs.Io.BufRead.{Rests};
    ghost use Rattle.cfgrammar.specs.Openings.{nth_production, OpensOne};
    ghost use Rattle.cfgrammar.specs.NumberedSymbols.{sym_of};
    ghost use Rattle.vectors.specs.contracts.signatures.own.OwnProductions.{the_row};

    ghost content = { λ x. x.grammar };

    ghost opened = { λ x p. slice_index x.opened p };

    ghost opened_all = { λ x. x.opened_all };

    fn rules_len(&self) -> RIdx<S> {
        self.tables.rules_len()
    }

    fn tokens_len(&self) -> TIdx<S> {
        self.tables.tokens_len()
    }

    fn prods_len(&self) -> PIdx<S> {
        self.prods_len
    }

    fn rule_of(&self, p: PIdx<S>) -> RIdx<S>
        requires { S.number p.0 < length self.now.grammar.productions }
        ensures { S.number result.0 ≡ (nth_production self.now.grammar (S.number p.0)).rule }
    {
        self.tables.prod_to_rule(p)
    }

    fn opened(&self, p: PIdx<S>) -> u64
        requires { S.number p.0 < length self.now.grammar.productions }
        ensures { result ≡ slice_index self.now.opened (S.number p.0) }
    {
        self.opened[usize::from(p)]
    }

    fn opened_all(&self) -> u128 {
        self.opened_all
    }

    fn open(&mut self, p: PIdx<S>) -> &[Symbol<S>]
        requires in_range { S.number p.0 < length self.old.grammar.productions }
        requires countable { slice_index self.old.opened (S.number p.0) < 2 ^ 64 - 1 }
        requires all_countable { self.old.opened_all < 2 ^ 128 - 1 }
        ensures symbols { map (sym_of S.number) result.now
            ≡ (nth_production self.old.grammar (S.number p.0)).symbols }
        ensures* counts { sem 𝓛 (Rests (the_row
            (record { mir = named 1; lft = [] }) S.row T.row S.Storage.own S.Ord.own S.PartialEq.own S.PartialOrd.own
            S.Hash.own T.Tables.own) self.entry (λ new.
            OpensOne (S.number p.0) self.old.grammar new.grammar (slice_index self.old.opened) (slice_index new.opened)
            self.old.opened_all new.opened_all)) }
    {
        self.opened[usize::from(p)] += 1;
        self.opened_all += 1;
        self.tables.prod(p)
    }
}

/// A sink that takes nothing.
#[derive(Drop)]
pub struct Closed {
    faults: u64,
}

impl Sink for Closed {
    ghost use Rattle.std.specs.Prelude.{[], Some};

    ghost written = { λ _. Some [] };

    ghost faults_counted = { λ closed. closed.faults };

    fn write(&mut self, bytes: &[u8]) -> Result<usize, SinkFault> {
        self.faults += 1;
        Err(SinkFault)
    }

    fn faults(&self) -> u64 {
        self.faults
    }
}

/// A source that has one file, which is read once.
#[derive(Drop)]
pub struct OneFile {
    bytes: Option<Vec<u8>>,
}

impl Source for OneFile {
    fn fetch(&mut self, _name: &str) -> Input {
        match self.bytes.take() {
            Some(bytes) => Input::Bytes(bytes),
            None => Input::OutOfMemory,
        }
    }
}
