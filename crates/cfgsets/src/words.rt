//! Tables of bits that grow, stored in words.

ghost use Rattle.std.specs.Prelude.{◌≡◌, ◌⊎◌, ◌+◌, ◌<◌, ◌≤◌, ◌^◌, All, false, true, length, slice_index_or};
ghost use Rattle.std.specs.Prelude.{IfOk, IsTrue, MatchBool};
ghost use Rattle.std.specs.List.{between};
ghost use Rattle.cfgindex.specs.BitWords.{AreWords, bits_of};
ghost use Rattle.cfgsets.specs.Table.{HasBit, Joins, bit, no_bits, row_of, with_bit};
ghost use Rattle.cfgsets.specs.Inner.Flat.{JoinsWords};

use cfgindex::{Vob, vob};
use std::alloc::{AllocError, Global};
use std::marker::Model;

/// A table of bits, whose rows all have the same length. They are stored in one list, with the same number of words for
/// each row; the bits of a row's last word after the last column are off.
#[derive(Drop)]
pub struct WordTable {
    rows: usize,
    columns: usize,
    row_words: usize,
    words: Vec<u64>,
}

impl Model for WordTable {
    ghost use Rattle.cfgsets.specs.Table.{Table};
    ghost use Rattle.cfgsets.specs.Inner.Flat.{AreRows, table_of};

    ghost Value = { Table };

    ghost view = { λ x. table_of x.rows x.columns x.row_words x.words.items };

    ghost invariant = { λ x. AreRows x.rows x.columns x.row_words x.words.items };
}

impl WordTable {
    /// A table with no bit on.
    ///
    /// # Errors
    ///
    /// Out of memory.
    pub fn new(alloc: Global, rows: usize, columns: usize) -> Result<Self, AllocError>
        requires rows { rows < 2 ^ 32 }
        requires columns { columns < 2 ^ 32 }
        ensures { IfOk result (λ x. x ≡ no_bits rows columns) }
    {
        let row_words = (columns + 63) / 64;
        let words = vec![in alloc; 0; rows * row_words]?;
        Ok(WordTable {
            rows,
            columns,
            row_words,
            words,
        })
    }

    /// The number of rows.
    pub fn rows(&self) -> usize
        ensures { result ≡ length self.now.rows }
    {
        self.rows
    }

    /// The number of columns.
    pub fn columns(&self) -> usize
        ensures columns { result ≡ self.now.columns }
        ensures wide { All (λ row. length row ≡ result) self.now.rows }
    {
        self.columns
    }

    /// The words of a row.
    pub fn row(&self, row: usize) -> &[u64]
        requires { row < length self.now.rows }
        ensures words { AreWords self.now.columns result.now }
        ensures bits { bits_of result.now self.now.columns ≡ row_of self.now row }
    {
        part(self.words.as_slice(), row * self.row_words, self.row_words)
    }

    /// Turns on a bit. Returns whether it was off.
    pub fn set(&mut self, row: usize, column: usize) -> bool
        requires row { row < length self.old.rows }
        requires column { column < self.old.columns }
        ensures bits { self.new ≡ with_bit self.old row column }
        ensures changed { MatchBool result (bit self.old row column ≡ false) (bit self.old row column ≡ true) }
    {
        let index = row * self.row_words + column / 64;
        let word = self.words[index];
        self.words[index] = vob::with_bit(word, column % 64, true);
        !vob::has_bit(word, column % 64)
    }

    /// Turns on each bit of the row that is on in `bits`. Returns whether that changed any.
    pub fn join(&mut self, row: usize, bits: &Vob) -> bool
        requires row { row < length self.old.rows }
        requires columns { length bits.now ≡ self.old.columns }
        ensures { Joins (λ r k. (r ≡ row) × IsTrue (slice_index_or bits.now k false)) self.old self.new result }
    {
        join_list(
            self.words.as_mut_slice(),
            row * self.row_words,
            bits.words(),
        )
    }

    /// Turns on each bit of the row that is on in the other row. Returns whether that changed any.
    pub fn join_row(&mut self, row: usize, other: usize) -> bool
        requires row { row < length self.old.rows }
        requires other { other < length self.old.rows }
        ensures { Joins (λ r k. (r ≡ row) × HasBit self.old other k) self.old self.new result }
    {
        let many = self.row_words;
        row != other && join_words(self.words.as_mut_slice(), row * many, other * many, many)
    }
}

/// `many` words, starting with the one at `from`.
fn part(words: &[u64], from: usize, many: usize) -> &[u64]
    requires { from + many ≤ length words.now }
    ensures { result.now ≡ between from (from + many) words.now }
{
    &words[from..from + many]
}

/// Turns on, in the words from `to` on, the bits that are on in the others. Returns whether that changed any.
fn join_list(words: &mut [u64], to: usize, others: &[u64]) -> bool
    requires { to + length others.now ≤ length words.old }
    ensures { JoinsWords to (length others.now) others.now words.old words.new result }
{
    vob::or_words(&mut words[to..to + others.len()], others)
}

/// Turns on, in the `many` words from `to` on, the bits that are on in those from `from` on. Returns whether that
/// changed any.
fn join_words(words: &mut [u64], to: usize, from: usize, many: usize) -> bool
    requires to { to + many ≤ length words.old }
    requires from { from + many ≤ length words.old }
    requires apart { (to + many ≤ from) ⊎ (from + many ≤ to) }
    ensures { JoinsWords to many (between from (from + many) words.old) words.old words.new result }
{
    let mut changed = false;
    for index in 0..many {
        let word = words[to + index];
        let joined = word | words[from + index];
        words[to + index] = joined;
        changed |= joined != word;
    }
    changed
}
