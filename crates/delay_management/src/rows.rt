// Rows of times and of reasons from any hand.
ghost use Rattle.std.specs.Prelude.{◌≡◌, ◌+◌, ◌<◌, ◌≤◌, length, map, nat_eq, slice_index_or, All, IfOk};
ghost use Rattle.tables.specs.Columns.{disposed_columns, reasons_columns};
ghost use Rattle.tables.specs.Tables.{no_row};
ghost use Rattle.tables.specs.Writing.{InColumns};
ghost use Rattle.event_tables.specs.Cells.{disposed_time, number_in};
ghost use Rattle.tables.specs.RowsOfTables.{records_by};
ghost use Rattle.delay_management.specs.Judged.{are_all, reason_at, reason_row};
ghost use Rattle.propagation.specs.declared.times.TheConstants.{LATEST};

use plan_num::NoMemory;
use propagation::Reason;
use std::alloc::Global;
use tables::Table;

/// Whether rows of times are one for each of so many events, in their order.
pub(crate) fn are_all_times(table: &Table<2>, events: usize) -> bool
    requires { All (λ row. InColumns disposed_columns row.cells) table.now }
    ensures { result
        ≡ are_all events (map (λ row. row.event) (records_by disposed_time table.now)) }
{
    if table.len() != events {
        return false;
    }
    for row in 0..table.len() {
        if time_event(table, row) as usize != row + 1 {
            return false;
        }
    }
    true
}

/// Whether rows of reasons are one for each of so many events, in their order.
pub(crate) fn are_all_reasons(table: &Table<3>, events: usize) -> bool
    requires { All (λ row. InColumns reasons_columns row.cells) table.now }
    ensures { result ≡ are_all events (map (λ row. row.event) (records_by reason_row table.now)) }
{
    if table.len() != events {
        return false;
    }
    for row in 0..table.len() {
        if reason_number(table, row, 0) as usize != row + 1 {
            return false;
        }
    }
    true
}

/// The times of rows.
pub(crate) fn times_of(alloc: Global, table: &Table<2>) -> Result<Vec<u64>, NoMemory>
    requires { All (λ row. InColumns disposed_columns row.cells) table.now }
    ensures times { IfOk result
        (λ times. times.items ≡ map (λ row. row.time) (records_by disposed_time table.now)) }
    ensures small { IfOk result (λ times. All (λ time. time ≤ LATEST) times.items) }
{
    let mut times = Vec::with_capacity(alloc, table.len())?;
    for row in 0..table.len() {
        times.push(time_number(table, row))?;
    }
    Ok(times)
}

/// The reasons of rows.
pub(crate) fn reasons_of(alloc: Global, table: &Table<3>) -> Result<Vec<Reason>, NoMemory>
    requires { All (λ row. InColumns reasons_columns row.cells) table.now }
    ensures { IfOk result
        (λ reasons. reasons.items ≡ map (λ row. row.reason) (records_by reason_row table.now)) }
{
    let mut reasons = Vec::with_capacity(alloc, table.len())?;
    for row in 0..table.len() {
        reasons.push(reason_in(table, row))?;
    }
    Ok(reasons)
}

// The reason of a row.
fn reason_in(table: &Table<3>, row: usize) -> Reason
    requires row { row < length table.now }
    requires cells { All (λ row. InColumns reasons_columns row.cells) table.now }
    ensures { result ≡ (reason_row (slice_index_or table.now row no_row).cells).reason }
{
    reason_at(reason_number(table, row, 1), reason_number(table, row, 2))
}

// The reason of a word, by its place; the id counts for an activity alone.
fn reason_at(place: u32, id: u32) -> Reason
    ensures { result ≡ reason_at place id }
{
    match place {
        0 => Reason::Source,
        1 => Reason::Activity { id },
        _ => Reason::Turn,
    }
}

// The event of a row of times.
fn time_event(table: &Table<2>, row: usize) -> u32
    requires row { row < length table.now }
    requires cells { All (λ row. InColumns disposed_columns row.cells) table.now }
    ensures { result ≡ number_in (slice_index_or table.now row no_row).cells 0 }
{
    table.cell(row, 0) as u32
}

// The time of a row of times.
fn time_number(table: &Table<2>, row: usize) -> u64
    requires row { row < length table.now }
    requires cells { All (λ row. InColumns disposed_columns row.cells) table.now }
    ensures value { result ≡ number_in (slice_index_or table.now row no_row).cells 1 }
    ensures small { result ≤ LATEST }
{
    table.cell(row, 1) as u64
}

// The number of a row of reasons in a column.
fn reason_number(table: &Table<3>, row: usize, column: usize) -> u32
    requires row { row < length table.now }
    requires column { column < 3 }
    requires cells { All (λ row. InColumns reasons_columns row.cells) table.now }
    ensures { result ≡ number_in (slice_index_or table.now row no_row).cells column }
{
    table.cell(row, column) as u32
}
