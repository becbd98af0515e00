// Tables of whole numbers.
ghost use Rattle.std.specs.Prelude.{◌≡◌, ◌<◌, ◌^◌, ◌++◌, ◌∷◌, [], length, slice_index_or, OnOk, OnErr};
ghost use Rattle.tables.specs.Reading.{RowGives};
ghost use Rattle.tables.specs.Tables.{row_number, cell_at, no_row, Wide};

use crate::column::ColumnKind;
use crate::read_fault::{ReadFault, RowFault};
use crate::row_cells::push_cells;
use crate::row_why::RowWhy;
use plan_num::NoMemory;
use std::alloc::Global;
use std::marker::Model;
use text_fields::TextRow;

/// Rows of whole cells, each with a row number. Contracts see it as the list of its rows.
#[derive(Debug)]
pub struct Table<const C: usize> {
    numbers: Vec<u64>,
    cells: Vec<i64>,
}

impl<const C: usize> Drop for Table<C> {
    fn drop(self) {
        let Table {
            numbers: _,
            cells: _,
        } = self;
    }
}

impl<const C: usize> Model for Table<C> {
    ghost use Rattle.std.specs.Prelude.{◌≡◌, ◌*◌, List, length, vec_len};
    ghost use Rattle.tables.specs.Tables.{TableRow, rows_of};

    ghost Value = { List TableRow };

    ghost view = { λ table. rows_of C table.numbers.items table.cells.items };

    ghost invariant = { λ table. vec_len table.cells ≡ vec_len table.numbers * C };
}

impl<const C: usize> Table<C> {
    /// A table without rows.
    pub fn new(alloc: Global) -> Table<C>
        ensures { result ≡ [] }
    {
        Table {
            numbers: Vec::new(alloc),
            cells: Vec::new(alloc),
        }
    }

    /// One row more.
    pub fn push(&mut self, number: u64, cells: &[i64; C]) -> Result<(), NoMemory>
        ensures ok { OnOk result (self.new ≡ self.old
            ++ record { number = number; cells = cells.now } ∷ []) }
        ensures err { OnErr result (self.new ≡ self.old) }
    {
        self.numbers.push(number)?;
        if self.cells.extend_from_slice(cells).is_err() {
            let _ = self.numbers.pop();
            return Err(NoMemory);
        }
        Ok(())
    }

    /// How many rows there are.
    pub fn len(&self) -> usize
        ensures len { result ≡ length self.now }
        ensures wide { Wide C self.now }
    {
        self.numbers.len()
    }

    /// The cells of a row.
    pub fn row(&self, row: usize) -> &[i64]
        requires { row < length self.now }
        ensures { result.now ≡ (slice_index_or self.now row no_row).cells }
    {
        let (_, from) = self.cells.split_at(row * C);
        from.split_at(C).0
    }

    /// The cell of a row in a column.
    pub fn cell(&self, row: usize, column: usize) -> i64
        requires row_in { row < length self.now }
        requires column_in { column < C }
        ensures { result ≡ cell_at self.now row column }
    {
        self.cells[row * C + column]
    }

    /// The number of a row.
    pub fn number(&self, row: usize) -> u64
        requires { row < length self.now }
        ensures { result ≡ row_number self.now row }
    {
        self.numbers[row]
    }

    /// No row any more; the memory is kept for other rows.
    pub fn clear(&mut self)
        ensures { self.new ≡ [] }
    {
        self.numbers.clear();
        self.cells.clear();
    }

    /// One row more, of the cells that its fields make.
    pub fn read_row(&mut self, row: &TextRow, kinds: &[ColumnKind; C]) -> Result<(), ReadFault>
        requires { C < 2 ^ 32 }
        ensures { RowGives kinds.now row.now self.old self.new result }
    {
        let found = row.len();
        if found != C {
            let why = RowWhy::FieldCount {
                found: found as u64,
            };
            let row = row.number();
            return Err(ReadFault::Row(RowFault { row, why }));
        }
        let had = self.cells.len();
        if let Err(fault) = push_cells(&mut self.cells, row, kinds) {
            self.cells.truncate(had);
            return Err(fault);
        }
        if self.numbers.push(row.number()).is_err() {
            self.cells.truncate(had);
            return Err(ReadFault::NoMemory);
        }
        Ok(())
    }
}
