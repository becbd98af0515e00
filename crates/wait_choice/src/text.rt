// The text of rows of a waiting decision.
ghost use Rattle.std.specs.Prelude.{◌≡◌, ◌≤◌, All, IfOk};
ghost use Rattle.tables.specs.RowsOfTables.{ReadsAs, file_text, rows_by};
ghost use Rattle.wait_choice.specs.PrintedRows.{RowFits};
ghost use Rattle.wait_choice.specs.WaitTexts.{cells_with, wait_cells, wait_row, waits_columns, waits_header};
ghost use Rattle.waiting_decisions.specs.declared.cost.TheConstants.{MOST_COST};

use crate::columns::waits_columns;
use crate::row::WaitRow;
use plan_num::{NoMemory, Text};
use std::alloc::Global;
use tables::{Table, write_table};

/// The text of rows. It is read back to them.
pub(crate) fn rows_text(alloc: Global, rows: &[WaitRow]) -> Result<Text, NoMemory>
    requires { All RowFits rows.now }
    ensures text { IfOk result
        (λ text. text ≡ file_text waits_header waits_columns wait_cells rows.now) }
    ensures back { IfOk result (ReadsAs waits_columns wait_row rows.now) }
{
    let table = rows_table(alloc, rows)?;
    write_table(alloc, b"# kind; id; value", &table, &waits_columns())
}

// The table of rows.
fn rows_table(alloc: Global, rows: &[WaitRow]) -> Result<Table<3>, NoMemory>
    requires { All RowFits rows.now }
    ensures { IfOk result (λ table. table ≡ rows_by wait_cells rows.now) }
{
    let mut table = Table::new(alloc);
    for row in rows {
        table.push(0, &wait_cells(row))?;
    }
    Ok(table)
}

// The cells of a row.
fn wait_cells(row: &WaitRow) -> [i64; 3]
    requires { RowFits row.now }
    ensures { result ≡ wait_cells row.now }
{
    match *row {
        WaitRow::Cost { cost } => cells_with(0, 0, cost),
        WaitRow::Keep { id } => cells_with(1, id, 0),
        WaitRow::Drop { id } => cells_with(2, id, 0),
        WaitRow::Split { id } => cells_with(3, id, 0),
        WaitRow::Leaf | WaitRow::Stray => cells_with(4, 0, 0),
    }
}

// The place of a word, an id and a value.
fn cells_with(place: u8, id: u64, value: u64) -> [i64; 3]
    requires id { id ≤ 1000000000 }
    requires value { value ≤ MOST_COST }
    ensures { result ≡ cells_with place id value }
{
    [i64::from(place), id as i64, value as i64]
}
