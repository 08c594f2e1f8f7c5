//! The productions of a grammar's tables.

ghost use Rattle.std.specs.Prelude.{◌≡◌, ◌<◌, ◌∷◌, ◌++◌, [], Some, length, map, option_map, slice_get, string_bytes};
ghost use Rattle.std.specs.Prelude.{IfOk, OnOk};
ghost use Rattle.cfgnumbers.specs.TablesView.{production_view};
ghost use Rattle.cfgtables.specs.NumberedSymbols.{sym_of};

use crate::lists::Lists;
use crate::rows::ProductionRow;
use cfgindex::{RIdx, Storage, Symbol};
use std::alloc::{AllocError, Global};
use std::marker::Model;

/// The productions, in order. Their rules are contiguous in memory, and so are their symbols.
#[derive(Drop)]
pub struct ProductionRows<S: Storage> {
    rules: Vec<RIdx<S>>,
    symbols: Lists<Symbol<S>>,
    rows: Vec<ProductionRow>,
}

impl<S: Storage> Model for ProductionRows<S> {
    ghost use Rattle.std.specs.Prelude.{◌≡◌, List, length, map};
    ghost use Rattle.std.specs.List.{zip};
    ghost use Rattle.cfgnumbers.specs.Numbered.{NumberedProduction};
    ghost use Rattle.cfgnumbers.specs.TablesView.{production_view};

    ghost Value = { List NumberedProduction };

    ghost view = { λ x. map (production_view S.number) (zip x.rules.items (zip x.symbols x.rows.items)) };

    ghost invariant = { λ x. (length x.rules.items ≡ length x.rows.items) × (length x.symbols ≡ length x.rows.items) };
}

impl<S: Storage> ProductionRows<S> {
    /// No productions, with room for this many.
    ///
    /// # Errors
    ///
    /// Out of memory.
    pub fn with_capacity(alloc: Global, productions: usize) -> Result<Self, AllocError>
        ensures { IfOk result (λ x. x ≡ []) }
    {
        Ok(ProductionRows {
            rules: Vec::with_capacity(alloc, productions)?,
            symbols: Lists::with_capacity(alloc, productions)?,
            rows: Vec::with_capacity(alloc, productions)?,
        })
    }

    /// The number of productions.
    pub fn len(&self) -> usize
        ensures { result ≡ length self.now }
    {
        self.rows.len()
    }

    /// The rule of the production with this number.
    pub fn rule(&self, index: usize) -> RIdx<S>
        requires { index < length self.now }
        ensures { option_map (λ p. p.rule) (slice_get self.now index) ≡ Some (S.number result.0) }
    {
        self.rules[index]
    }

    /// The symbols of the production with this number.
    pub fn symbols(&self, index: usize) -> &[Symbol<S>]
        requires { index < length self.now }
        ensures { option_map (λ p. p.symbols) (slice_get self.now index) ≡ Some (map (sym_of S.number) result.now) }
    {
        self.symbols.get(index)
    }

    /// The row of the production with this number.
    pub fn row(&self, index: usize) -> &ProductionRow
        requires { index < length self.now }
        ensures span { option_map (λ p. p.span) (slice_get self.now index) ≡ Some result.now.span }
        ensures precedence { option_map (λ p. p.precedence) (slice_get self.now index)
            ≡ Some result.now.precedence }
        ensures action { option_map (λ p. p.action) (slice_get self.now index)
            ≡ Some (option_map string_bytes result.now.action) }
        ensures action_span { option_map (λ p. p.action_span) (slice_get self.now index)
            ≡ Some result.now.action_span }
    {
        &self.rows[index]
    }

    /// Adds a production after the others.
    ///
    /// # Errors
    ///
    /// Out of memory.
    pub fn push(
        &mut self,
        rule: RIdx<S>,
        symbols: &[Symbol<S>],
        row: ProductionRow,
    ) -> Result<(), AllocError>
        ensures { OnOk result (self.new
            ≡ self.old ++ production_view S.number (rule, (symbols.now, row)) ∷ []) }
    {
        self.rules.reserve(1)?;
        self.rows.reserve(1)?;
        self.symbols.push(symbols)?;
        self.rules.push_reserved(rule);
        self.rows.push_reserved(row);
        Ok(())
    }
}
