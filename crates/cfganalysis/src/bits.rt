//! Tables of bits.

ghost use Rattle.std.specs.Prelude.{◌≡◌, ◌<◌, false, true, length, IfOk, MatchBool};
ghost use Rattle.cfgsets.specs.Table.{bit, row_of, with_bit};

use cfgindex::Vob;
use cfgsets::WordTable;
use std::alloc::{AllocError, Global};
use std::marker::Model;

/// A table of bits, whose rows all have the same length.
#[derive(Debug, Drop)]
pub struct BitTable {
    columns: usize,
    rows: Vec<Vob>,
}

impl Model for BitTable {
    ghost use Rattle.std.specs.Prelude.{◌≡◌, length, All};
    ghost use Rattle.cfgsets.specs.Table.{Table};

    ghost Value = { Table };

    ghost view = { λ x. record { columns = x.columns; rows = x.rows.items } };

    ghost invariant = { λ x. All (λ row. length row ≡ x.columns) x.rows.items };
}

impl BitTable {
    /// Copies each row of a table of words into a list of bits.
    ///
    /// # Errors
    ///
    /// Out of memory.
    pub(crate) fn from_words(alloc: Global, table: &WordTable) -> Result<Self, AllocError>
        ensures { IfOk result (λ x. x ≡ table.now) }
    {
        let columns = table.columns();
        let mut rows = Vec::with_capacity(alloc, table.rows())?;
        for row in 0..table.rows() {
            rows.push(Vob::from_words(alloc, table.row(row), columns)?)?;
        }
        Ok(BitTable { columns, rows })
    }

    /// The number of columns.
    pub fn columns(&self) -> usize
        ensures { result ≡ self.now.columns }
    {
        self.columns
    }

    /// The bits of each row.
    pub(crate) fn rows(&self) -> &[Vob]
        ensures { result.now ≡ self.now.rows }
    {
        self.rows.as_slice()
    }

    /// The bits of a row.
    pub fn row(&self, row: usize) -> &Vob
        requires { row < length self.now.rows }
        ensures { result.now ≡ row_of self.now row }
    {
        &self.rows[row]
    }

    /// Whether a bit is on. Outside the table, no bit is.
    pub fn is_set(&self, row: usize, column: usize) -> bool
        ensures { result ≡ bit self.now row column }
    {
        match self.rows.get(row) {
            Some(bits) => bits.get(column).unwrap_or(false),
            None => false,
        }
    }

    /// Turns on a bit. Returns whether it was off.
    pub fn set(&mut self, row: usize, column: usize) -> bool
        requires row { row < length self.old.rows }
        requires column { column < self.old.columns }
        ensures bits { self.new ≡ with_bit self.old row column }
        ensures changed { MatchBool result (bit self.old row column ≡ false) (bit self.old row column ≡ true) }
    {
        self.rows[row].set(column, true)
    }
}
