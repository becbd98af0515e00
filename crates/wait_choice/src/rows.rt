// The rows of a text of a waiting decision from any hand.
ghost use Rattle.std.specs.Prelude.{◌≡◌, ◌<◌, ◌==◌, length, map, if◌then◌else◌, true, false, None};
ghost use Rattle.std.specs.Prelude.{Some, slice_index_or, All, IfOk, IfSome, MatchOption};
ghost use Rattle.tables.specs.Reading.{faults, table_of};
ghost use Rattle.tables.specs.Tables.{no_row};
ghost use Rattle.tables.specs.Writing.{InColumns};
ghost use Rattle.event_tables.specs.Cells.{number_in};
ghost use Rattle.tables.specs.RowsOfTables.{records_by};
ghost use Rattle.wait_choice.specs.WaitTexts.{said_by, wait_row, waits_columns, where_zero};

use crate::columns::waits_columns;
use crate::row::WaitRow;
use plan_num::NoMemory;
use std::alloc::Global;
use tables::{ReadFault, Table, read_table};

/// What the rows of a text say, where it is a table of this kind. The table is let go of: its rows
/// take more room than what they say.
pub(crate) fn rows_in(alloc: Global, text: &[u8]) -> Result<Option<Vec<WaitRow>>, NoMemory>
    ensures { IfOk result (λ rows. MatchOption rows
        ((length (faults waits_columns text.now) == 0) ≡ false)
        (λ rows. ((length (faults waits_columns text.now) == 0) ≡ true)
        × (rows.items ≡ records_by wait_row (table_of waits_columns text.now)))) }
{
    match wait_table(alloc, text)? {
        None => Ok(None),
        Some(table) => Ok(Some(rows_of(alloc, &table)?)),
    }
}

// The table that a text is, where it is one.
fn wait_table(alloc: Global, text: &[u8]) -> Result<Option<Table<3>>, NoMemory>
    ensures read { IfOk result (λ read. read ≡ (if length (faults waits_columns text.now) == 0
        then Some (table_of waits_columns text.now) else None)) }
    ensures cells { IfOk result (λ read. IfSome read
        (λ table. All (λ row. InColumns waits_columns row.cells) table)) }
{
    match read_table(alloc, text, &waits_columns()) {
        Ok(table) => Ok(Some(table)),
        Err(ReadFault::Row(_)) => Ok(None),
        Err(ReadFault::NoMemory) => Err(NoMemory),
    }
}

// What the rows of a table say.
fn rows_of(alloc: Global, table: &Table<3>) -> Result<Vec<WaitRow>, NoMemory>
    requires { All (λ row. InColumns waits_columns row.cells) table.now }
    ensures { IfOk result (λ rows. rows.items ≡ records_by wait_row table.now) }
{
    let mut rows = Vec::with_capacity(alloc, table.len())?;
    for row in 0..table.len() {
        rows.push(row_in(table, row))?;
    }
    Ok(rows)
}

// What a row of a table says.
fn row_in(table: &Table<3>, row: usize) -> WaitRow
    requires row { row < length table.now }
    requires cells { All (λ row. InColumns waits_columns row.cells) table.now }
    ensures { result ≡ wait_row (slice_index_or table.now row no_row).cells }
{
    said_by(
        number_in(table, row, 0),
        number_in(table, row, 1),
        number_in(table, row, 2),
    )
}

// The number of a row in a column.
fn number_in(table: &Table<3>, row: usize, column: usize) -> u64
    requires row { row < length table.now }
    requires column { column < 3 }
    requires cells { All (λ row. InColumns waits_columns row.cells) table.now }
    ensures { result ≡ number_in (slice_index_or table.now row no_row).cells column }
{
    table.cell(row, column) as u64
}

// What a row with an id and a value says, by the place of its word.
fn said_by(place: u64, id: u64, value: u64) -> WaitRow
    ensures { result ≡ said_by place id value }
{
    match place {
        0 => where_zero(id, WaitRow::Cost { cost: value }),
        1 => where_zero(value, WaitRow::Keep { id }),
        2 => where_zero(value, WaitRow::Drop { id }),
        3 => where_zero(value, WaitRow::Split { id }),
        4 => where_zero(id, where_zero(value, WaitRow::Leaf)),
        _ => WaitRow::Stray,
    }
}

// A row that is one where a cell is 0, and else a stray one.
fn where_zero(cell: u64, row: WaitRow) -> WaitRow
    ensures { result ≡ where_zero cell row }
{
    if cell == 0 { row } else { WaitRow::Stray }
}
