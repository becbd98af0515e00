// The rules of a timetable from any hand, in their order.
ghost use Rattle.std.specs.Prelude.{◌≡◌, ◌+◌, ◌<◌, ◌≤◌, ◌==◌, ◌&&◌, length, map, slice_get};
ghost use Rattle.std.specs.Prelude.{slice_index_or};
ghost use Rattle.std.specs.Prelude.{if◌then◌else◌, None, Some, All, IfOk, IfSome};
ghost use Rattle.tables.specs.Columns.{times_p_columns};
ghost use Rattle.tables.specs.Reading.{faults, table_of};
ghost use Rattle.tables.specs.Tables.{no_row};
ghost use Rattle.tables.specs.Writing.{InColumns};
ghost use Rattle.event_tables.specs.Cells.{number_in, periodic_time};
ghost use Rattle.tables.specs.RowsOfTables.{records_by};
ghost use Rattle.pesp_search.specs.Judged.{are_in_order, broken_rows, first_broken_rule, is_table};
ghost use Rattle.pesp_search.specs.Judged.{is_time_of};

use crate::fault::TimetableFault;
use pesp::Pesp;
use plan_num::NoMemory;
use std::alloc::Global;
use tables::{ReadFault, Table, columns, read_table};

/// The first rule that the text of a timetable breaks for a problem of a period.
pub(crate) fn first_fault(
    alloc: Global,
    pesp: &Pesp,
    period: u32,
    text: &[u8],
) -> Result<Option<TimetableFault>, NoMemory>
    requires { pesp.now.period ≡ period }
    ensures { IfOk result (λ answer. answer ≡ first_broken_rule pesp.now text.now) }
{
    match time_table(alloc, text)? {
        None => Ok(Some(TimetableFault::Row)),
        Some(table) => rows_fault(alloc, pesp, period, &table),
    }
}

// The table that a text is, where it is one.
fn time_table(alloc: Global, text: &[u8]) -> Result<Option<Table<2>>, NoMemory>
    ensures read { IfOk result (λ read. read
        ≡ (if is_table text.now then Some (table_of times_p_columns text.now) else None)) }
    ensures cells { IfOk result (λ read. IfSome read
        (λ table. All (λ row. InColumns times_p_columns row.cells) table)) }
{
    match read_table(alloc, text, &columns!(TimesP)) {
        Ok(table) => Ok(Some(table)),
        Err(ReadFault::Row(_)) => Ok(None),
        Err(ReadFault::NoMemory) => Err(NoMemory),
    }
}

// The first rule that the rows of a table break.
fn rows_fault(
    alloc: Global,
    pesp: &Pesp,
    period: u32,
    table: &Table<2>,
) -> Result<Option<TimetableFault>, NoMemory>
    requires period { pesp.now.period ≡ period }
    requires cells { All (λ row. InColumns times_p_columns row.cells) table.now }
    ensures { IfOk result (λ answer. answer
        ≡ slice_get (broken_rows pesp.now (records_by periodic_time table.now)) 0) }
{
    if !are_in_order(table, pesp, period) {
        return Ok(Some(TimetableFault::Events));
    }
    let times = times_of(alloc, table)?;
    match pesp.first_violated(&times) {
        Some(_) => Ok(Some(TimetableFault::Tension)),
        None => Ok(None),
    }
}

// Whether the rows of a table are one for each event in order, with a time below the period.
fn are_in_order(table: &Table<2>, pesp: &Pesp, period: u32) -> bool
    requires period { pesp.now.period ≡ period }
    requires cells { All (λ row. InColumns times_p_columns row.cells) table.now }
    ensures { result ≡ are_in_order pesp.now (records_by periodic_time table.now) }
{
    if table.len() != pesp.event_count() {
        return false;
    }
    for row in 0..table.len() {
        if !is_in_place(table, row, period) {
            return false;
        }
    }
    true
}

// Whether a row is that of the event of its place, with a time below a period.
fn is_in_place(table: &Table<2>, row: usize, period: u32) -> bool
    requires row { row < length table.now }
    requires few { length table.now ≤ 4000 }
    requires cells { All (λ row. InColumns times_p_columns row.cells) table.now }
    ensures { result ≡ is_time_of period
        (row + 1, periodic_time (slice_index_or table.now row no_row).cells) }
{
    number(table, row, 0) as usize == row + 1 && number(table, row, 1) < period
}

// The times of the rows.
fn times_of(alloc: Global, table: &Table<2>) -> Result<Vec<u32>, NoMemory>
    requires { All (λ row. InColumns times_p_columns row.cells) table.now }
    ensures { IfOk result (λ times. times.items
        ≡ map (λ row. row.time) (records_by periodic_time table.now)) }
{
    let mut times = Vec::new(alloc);
    for row in 0..table.len() {
        times.push(number(table, row, 1))?;
    }
    Ok(times)
}

// The number of a row in a column.
fn number(table: &Table<2>, row: usize, column: usize) -> u32
    requires row { row < length table.now }
    requires column { column < 2 }
    requires cells { All (λ row. InColumns times_p_columns row.cells) table.now }
    ensures { result ≡ number_in (slice_index_or table.now row no_row).cells column }
{
    table.cell(row, column) as u32
}
