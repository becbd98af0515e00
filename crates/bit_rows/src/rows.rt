// Rows of bits.
ghost use Rattle.std.specs.Prelude.{◌≡◌, ℕ, ◌+◌, ◌*◌, ◌/◌, ◌<◌, ◌≤◌, ◌++◌, ◌&&◌, ◌==◌, true, false};
ghost use Rattle.std.specs.Prelude.{get_or, if◌then◌else◌, IfOk, OnOk};
ghost use Rattle.bit_rows.specs.Bits.{AreBits, FitsAt, common, has, with_word, word_of, words_of};

use crate::words::{full_word, has_bit, push_places, put_zeros, with_bit, words_of};
use plan_num::NoMemory;
use std::alloc::Global;
use std::marker::Model;

/// Rows of bits, each of the same number of columns, in words of 64. The bits of a row begin with
/// a word.
#[derive(Debug, Drop)]
pub struct BitRows {
    rows: usize,
    columns: usize,
    words: Vec<u64>,
}

impl Model for BitRows {
    ghost use Rattle.bit_rows.specs.Bits.{AreBits, Bits};

    ghost Value = { Bits };

    ghost view = { λ bits. record {
      rows = bits.rows;
      columns = bits.columns;
      words = bits.words.items;
    } };

    ghost invariant = { λ bits. AreBits (record {
      rows = bits.rows;
      columns = bits.columns;
      words = bits.words.items;
    }) };
}

impl BitRows {
    /// So many rows and columns, of which no bit is set.
    pub fn none(alloc: Global, rows: usize, columns: usize) -> Result<BitRows, NoMemory>
        requires few_rows { rows ≤ 1000000 }
        requires few_columns { columns ≤ 1000000 }
        ensures rows { IfOk result (λ bits. bits.rows ≡ rows) }
        ensures columns { IfOk result (λ bits. bits.columns ≡ columns) }
        ensures none { IfOk result (λ bits. (row column : ℕ) → has bits row column ≡ false) }
    {
        let mut words = Vec::new(alloc);
        for _place in 0..rows * words_of(columns) {
            words.push(0)?;
        }
        Ok(BitRows {
            rows,
            columns,
            words,
        })
    }

    /// So many rows and columns, of which all bits are set.
    pub fn all(alloc: Global, rows: usize, columns: usize) -> Result<BitRows, NoMemory>
        requires few_rows { rows ≤ 1000000 }
        requires some { 1 ≤ columns }
        requires few_columns { columns ≤ 1000000 }
        ensures rows { IfOk result (λ bits. bits.rows ≡ rows) }
        ensures columns { IfOk result (λ bits. bits.columns ≡ columns) }
        ensures all { IfOk result (λ bits. (row column : ℕ) → row < rows → column < columns
            → has bits row column ≡ true) }
        ensures sound { IfOk result AreBits }
    {
        let mut words = Vec::new(alloc);
        for place in 0..rows * words_of(columns) {
            words.push(full_word(place, columns))?;
        }
        Ok(BitRows {
            rows,
            columns,
            words,
        })
    }

    /// How many rows there are.
    pub fn rows(&self) -> usize
        ensures value { result ≡ self.now.rows }
        ensures sound { AreBits self.now }
    {
        self.rows
    }

    /// How many columns there are.
    pub fn columns(&self) -> usize
        ensures value { result ≡ self.now.columns }
        ensures sound { AreBits self.now }
    {
        self.columns
    }

    /// How many words a row has.
    pub fn width(&self) -> usize
        ensures value { result ≡ words_of self.now.columns }
        ensures sound { AreBits self.now }
    {
        words_of(self.columns)
    }

    /// Whether a bit is set.
    pub fn has(&self, row: usize, column: usize) -> bool
        requires row { row < self.now.rows }
        requires column { column < self.now.columns }
        ensures { result ≡ has self.now row column }
    {
        has_bit(self.word(row, column / 64), column % 64)
    }

    /// Sets a bit.
    pub fn set(&mut self, row: usize, column: usize)
        requires row { row < self.old.rows }
        requires column { column < self.old.columns }
        ensures rows { self.new.rows ≡ self.old.rows }
        ensures columns { self.new.columns ≡ self.old.columns }
        ensures bits { (r c : ℕ) → r < self.old.rows → c < self.old.columns → has self.new r c
            ≡ (if (r == row) && (c == column) then true else has self.old r c) }
    {
        self.put(row, column, true);
    }

    /// Takes a bit away.
    pub fn clear(&mut self, row: usize, column: usize)
        requires row { row < self.old.rows }
        requires column { column < self.old.columns }
        ensures rows { self.new.rows ≡ self.old.rows }
        ensures columns { self.new.columns ≡ self.old.columns }
        ensures bits { (r c : ℕ) → r < self.old.rows → c < self.old.columns → has self.new r c
            ≡ (if (r == row) && (c == column) then false else has self.old r c) }
    {
        self.put(row, column, false);
    }

    /// Sets a bit or takes it away.
    #[tactic(auto, using(crate::proofs::RowBits::bit_put, crate::proofs::RowBits::fits))]
    pub fn put(&mut self, row: usize, column: usize, is: bool)
        requires row { row < self.old.rows }
        requires column { column < self.old.columns }
        ensures rows { self.new.rows ≡ self.old.rows }
        ensures columns { self.new.columns ≡ self.old.columns }
        ensures bits { (r c : ℕ) → r < self.old.rows → has self.new r c
            ≡ (if (r == row) && (c == column) then is else has self.old r c) }
    {
        let (place, word) = self.placed_word(row, column / 64);
        self.put_word(place, with_bit(word, column % 64, is));
    }

    /// Takes all bits away.
    pub fn clear_all(&mut self)
        ensures rows { self.new.rows ≡ self.old.rows }
        ensures columns { self.new.columns ≡ self.old.columns }
        ensures none { (row column : ℕ) → has self.new row column ≡ false }
    {
        put_zeros(&mut self.words);
    }

    /// A word of a row.
    pub fn word(&self, row: usize, index: usize) -> u64
        requires row { row < self.now.rows }
        requires index { index < words_of self.now.columns }
        ensures value { (column : ℕ) → column / 64 ≡ index → word_of self.now row column ≡ result }
        ensures sound { AreBits self.now }
    {
        self.words[row * self.width() + index]
    }

    /// The place of a word of a row among the words of all rows, and that word.
    pub fn placed_word(&self, row: usize, index: usize) -> (usize, u64)
        requires row { row < self.now.rows }
        requires index { index < words_of self.now.columns }
        ensures place { result.0 ≡ row * words_of self.now.columns + index }
        ensures within { result.0 < self.now.rows * words_of self.now.columns }
        ensures word { result.1 ≡ get_or self.now.words result.0 0 }
        ensures sound { AreBits self.now }
    {
        let words = self.words.as_slice();
        let place = row * self.width() + index;
        (place, words[place])
    }

    /// Replaces the word at a place.
    pub fn put_word(&mut self, place: usize, word: u64)
        requires place { place < self.old.rows * words_of self.old.columns }
        requires word { FitsAt self.old.rows self.old.columns place word }
        ensures put { self.new ≡ with_word self.old place word }
        ensures sound { AreBits self.old }
        ensures kept { AreBits self.new }
    {
        self.words[place] = word;
    }

    /// Puts the columns at which both of two rows have a bit after those of a list, in rising order.
    pub fn push_common(
        &self,
        row: usize,
        other: &BitRows,
        other_row: usize,
        found: &mut Vec<usize>,
    ) -> Result<(), NoMemory>
        requires columns { other.now.columns ≡ self.now.columns }
        requires row { row < self.now.rows }
        requires other_row { other_row < other.now.rows }
        ensures { OnOk result (found.new.items
            ≡ found.old.items ++ common self.now row other.now other_row) }
    {
        for index in 0..self.width() {
            let both = self.word(row, index) & other.word(other_row, index);
            push_places(both, 64 * index, found)?;
        }
        Ok(())
    }
}
