// Reading potentials.
ghost use Rattle.std.specs.Prelude.{◌≡◌, ◌+◌, ◌<◌, length, slice_index_or, unsigned_abs, All, IfOk};
ghost use Rattle.link_plans.specs.Potentials.{AreOver};
ghost use Rattle.flow_potentials.specs.PotentialTables.{is_trip_row, table_faults, potentials_of};
ghost use Rattle.flow_potentials.specs.PotentialTables.{potentials_in, gaps_from, PotentialsGive};
ghost use Rattle.flow_potentials.specs.PotentialTables.{FitsColumns};
ghost use Rattle.tables.specs.declared.read_fault.ReadFault.TheVariants as read_faults;
ghost use Rattle.tables.specs.declared.row_why.RowWhy.TheVariants as why;
ghost use Rattle.tables.specs.Tables.{no_row, cell_at};

use assignment::Potentials;
use std::alloc::Global;
use tables::{ReadFault, RowFault, RowWhy, Table, columns, read_table};

/// The potentials of so many trips by a text, or its first fault: that it is no table of potentials,
/// else a row that is not that of the next trip, else, at row 0, that trips are left.
pub fn read_potentials(alloc: Global, bytes: &[u8], trips: usize) -> Result<Potentials, ReadFault>
    ensures read { PotentialsGive (table_faults trips bytes.now) (potentials_of bytes.now) result }
    ensures each { IfOk result (AreOver trips) }
{
    let table = read_table(alloc, bytes, &columns!(Potential))?;
    read_rows(alloc, &table, trips)
}

// The potentials of a table.
fn read_rows(alloc: Global, table: &Table<3>, trips: usize) -> Result<Potentials, ReadFault>
    requires { All FitsColumns table.now }
    ensures read { PotentialsGive (gaps_from trips 0 table.now) (potentials_in table.now) result }
    ensures each { IfOk result (AreOver trips) }
{
    let mut u = Vec::new(alloc);
    let mut v = Vec::new(alloc);
    for row in 0..table.len() {
        if !is_trip_row(table, row, trips) {
            return Err(gap(table.number(row)));
        }
        u.push(number(table, row, 1))?;
        v.push(number(table, row, 2))?;
    }
    if table.len() < trips {
        return Err(gap(0));
    }
    Ok(Potentials::of_numbers(u, v))
}

// Whether a row is that of the trip of its place.
fn is_trip_row(table: &Table<3>, row: usize, trips: usize) -> bool
    requires { row < length table.now }
    ensures { result ≡ is_trip_row trips row (slice_index_or table.now row no_row) }
{
    row < trips && number(table, row, 0) == row as u64 + 1
}

// The number of a row in a column.
fn number(table: &Table<3>, row: usize, column: usize) -> u64
    requires row { row < length table.now }
    requires column { column < 3 }
    ensures { result ≡ unsigned_abs (cell_at table.now row column) }
{
    table.cell(row, column).unsigned_abs()
}

// The refusal of a row that is not that of the next trip.
fn gap(row: u64) -> ReadFault
    ensures { result ≡ read_faults.Row (record { row = row; why = why.OrderGap }) }
{
    ReadFault::Row(RowFault {
        row,
        why: RowWhy::OrderGap,
    })
}
