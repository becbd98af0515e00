// The cells of a row.
ghost use Rattle.std.specs.Prelude.{◌≡◌, ◌+◌, ◌<◌, ◌≤◌, ◌^◌, [], IfOk, IfSome, Ok, drop, length, ℕ};
ghost use Rattle.std.specs.Prelude.{slice_index_or, vec_len};
ghost use Rattle.csv.specs.Records.{fields_of};
ghost use Rattle.tables.specs.InnerReading.{CellsGive, CellsLeft};
ghost use Rattle.tables.specs.Reading.{cell_of, cells_from};
ghost use Rattle.text_fields.specs.Rows.{cleaned};

use crate::cells::cell_of;
use crate::column::ColumnKind;
use crate::plain_cell::plain_cell;
use crate::read_fault::{ReadFault, RowFault};
use crate::row_why::RowWhy;
use csv::ByteRecord;
use plan_num::NoMemory;
use text_fields::TextRow;

/// Appends the cells that the fields of a row make, of which there are as many as columns.
pub(crate) fn push_cells(
    cells: &mut Vec<i64>,
    row: &TextRow,
    kinds: &[ColumnKind],
) -> Result<(), ReadFault>
    requires whole { length row.now.fields ≡ length kinds.now }
    requires narrow { length kinds.now < 2 ^ 32 }
    ensures grows { vec_len cells.old ≤ vec_len cells.new }
    ensures gives { CellsGive row.now.number (cells_from 1 kinds.now row.now.fields)
        cells.old.items cells.new.items result }
{
    let done = push_front(cells, row, kinds)?;
    if done < kinds.len() {
        push_rest(cells, row, kinds, done)
    } else {
        Ok(())
    }
}

// Appends the cells of the first columns, as long as the fields are plain and as csv gives them, and
// returns how many.
fn push_front(cells: &mut Vec<i64>, row: &TextRow, kinds: &[ColumnKind]) -> Result<usize, NoMemory>
    requires whole { length row.now.fields ≡ length kinds.now }
    ensures grows { vec_len cells.old ≤ vec_len cells.new }
    ensures within { IfOk result (λ done. done ≤ length kinds.now) }
    ensures left { IfOk result (λ done.
        CellsLeft kinds.now row.now.fields done cells.old.items cells.new.items) }
{
    match row.apart() {
        Some(pieces) => push_plain(cells, pieces, kinds),
        None => Ok(0),
    }
}

// Appends the cells of the first columns, as long as the fields of these pieces are plain.
fn push_plain(
    cells: &mut Vec<i64>,
    pieces: &ByteRecord,
    kinds: &[ColumnKind],
) -> Result<usize, NoMemory>
    requires whole { length (cleaned (fields_of pieces.now)) ≡ length kinds.now }
    ensures grows { vec_len cells.old ≤ vec_len cells.new }
    ensures within { IfOk result (λ done. done ≤ length kinds.now) }
    ensures left { IfOk result (λ done. CellsLeft kinds.now (cleaned (fields_of pieces.now)) done
        cells.old.items cells.new.items) }
{
    for (index, kind) in kinds.iter().enumerate() {
        match cell_apart(pieces, kind, index) {
            Some(cell) => cells.push(cell)?,
            None => return Ok(index),
        }
    }
    Ok(kinds.len())
}

// The cell of the field that a piece makes, where it is plain.
#[inline(always)]
fn cell_apart(pieces: &ByteRecord, kind: &ColumnKind, index: usize) -> Option<i64>
    requires { index < length (cleaned (fields_of pieces.now)) }
    ensures { (column : ℕ) → IfSome result (λ cell. cell_of kind.now column
        (slice_index_or (cleaned (fields_of pieces.now)) index []) ≡ Ok cell) }
{
    plain_cell(kind, pieces.get(index).unwrap_or(&[]))
}

// Appends the cells of the columns from a place on.
#[cold]
#[inline(never)]
fn push_rest(
    cells: &mut Vec<i64>,
    row: &TextRow,
    kinds: &[ColumnKind],
    from: usize,
) -> Result<(), ReadFault>
    requires whole { length row.now.fields ≡ length kinds.now }
    requires narrow { length kinds.now < 2 ^ 32 }
    requires within { from ≤ length kinds.now }
    ensures grows { vec_len cells.old ≤ vec_len cells.new }
    ensures gives { CellsGive row.now.number
        (cells_from (from + 1) (drop from kinds.now) (drop from row.now.fields))
        cells.old.items cells.new.items result }
{
    for index in from..kinds.len() {
        match cell_in(row, &kinds[index], index) {
            Ok(cell) => cells.push(cell)?,
            Err(why) => {
                let row = row.number();
                return Err(ReadFault::Row(RowFault { row, why }));
            }
        }
    }
    Ok(())
}

// The cell that a field of a row makes in a column.
fn cell_in(row: &TextRow, kind: &ColumnKind, index: usize) -> Result<i64, RowWhy>
    requires there { index < length row.now.fields }
    requires narrow { index + 1 < 2 ^ 32 }
    ensures { result ≡ cell_of kind.now (index + 1) (slice_index_or row.now.fields index []) }
{
    if let Some(pieces) = row.apart() {
        if let Some(cell) = cell_apart(pieces, kind, index) {
            return Ok(cell);
        }
    }
    cell_of(*kind, index as u32 + 1, row.field(index))
}
