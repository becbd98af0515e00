// The loads of edges by demand.
ghost use Rattle.std.specs.Prelude.{ℕ, pos, ◌≡◌, ◌+◌, ◌<◌, ◌≤◌, ◌≤ℤ◌, ◌^◌, [], length, position, slice_get, unsigned_abs, IfNone, IfOk, OnOk};
ghost use Rattle.std.specs.List.{All};
ghost use Rattle.std.specs.Ordering.{int_eq};
ghost use Rattle.tables.specs.Columns.{od_columns};
ghost use Rattle.tables.specs.Inputs.{input_faults, records, records_of, table_row_faults, table_faults, broken_whys, UnlessFault};
ghost use Rattle.tables.specs.Writing.{InColumns};
ghost use Rattle.demand_load.specs.Demand.{demand_input, demand_loads, row_load};
ghost use Rattle.demand_paths.specs.Known.{AreKnown};
ghost use Rattle.demand_paths.specs.Wanted.{everyone, goes_over, sum_between, AreWanted};

use crate::demand_row::DemandRow;
use demand_paths::{KnownPaths, Wanted, loads_of_wanted};
use plan_num::NoMemory;
use ptn_network::Network;
use std::alloc::Global;
use tables::{Counted, FileId, Refusal, RowWhy, StageFault, Table, columns, read_input};

const MOST_ROWS: usize = 100_000;

/// How many customers, in millionths, go over each edge by the demand of a text, or the first fault
/// of the text.
pub fn read_demand(alloc: Global, network: &Network, text: &[u8]) -> Result<Vec<u64>, StageFault>
    ensures { UnlessFault (input_faults (demand_input network.now) text.now)
        (λ loads. loads.items ≡ demand_loads network.now
        (records_of (demand_input network.now) text.now)) result }
{
    let table = read_input(alloc, FileId::Od, text, &columns!(Od))?;
    loads_of_table(alloc, network.for_walks(), &table)
}

// The loads by a table, or its first fault.
fn loads_of_table(
    alloc: Global,
    network: &walks::Network,
    table: &Table<3>,
) -> Result<Vec<u64>, StageFault>
    requires { All (λ row. InColumns od_columns row.cells) table.now }
    ensures { UnlessFault (table_faults (demand_input network.now) table.now)
        (λ loads. loads.items ≡ demand_loads network.now
        (records (demand_input network.now) table.now)) result }
{
    if table.len() > MOST_ROWS {
        return Err(StageFault::Refused(Refusal::TooMany {
            what: Counted::DemandRows,
            count: table.len() as u64,
        }));
    }
    let loads = loads_of_rows(alloc, network, table)?;
    Ok(loads)
}

// The loads by the rows of a table, or the first row that breaks a rule.
fn loads_of_rows(
    alloc: Global,
    network: &walks::Network,
    table: &Table<3>,
) -> Result<Vec<u64>, StageFault>
    requires few { length table.now ≤ 100000 }
    requires cells { All (λ row. InColumns od_columns row.cells) table.now }
    ensures { UnlessFault (table_row_faults (demand_input network.now) table.now)
        (λ loads. loads.items ≡ demand_loads network.now
        (records (demand_input network.now) table.now)) result }
{
    let mut known = KnownPaths::new(alloc, network)?;
    let mut wanted = Wanted::new(alloc, network)?;
    for i in 0..table.len() {
        let row = DemandRow::read(table, i);
        if let Some(why) = note_row(alloc, network, &mut known, &mut wanted, &row)? {
            return Err(StageFault::Refused(Refusal::BadRow {
                file: FileId::Od,
                row: table.number(i),
                why,
            }));
        }
    }
    let loads = loads_of_wanted(alloc, network, &mut known, &wanted)?;
    Ok(loads)
}

// The customers of a row want to go, or the row is refused for this reason. A row without customers
// needs no path.
fn note_row(
    alloc: Global,
    network: &walks::Network,
    known: &mut KnownPaths,
    wanted: &mut Wanted,
    row: &DemandRow,
) -> Result<Option<RowWhy>, NoMemory>
    requires known { AreKnown network.now known.old }
    requires wanted { AreWanted network.now wanted.old }
    requires low { pos 0 ≤ℤ row.now.customers }
    requires room { sum_between (λ _. everyone) 0 wanted.old + unsigned_abs row.now.customers
        < 2 ^ 64 }
    ensures known { OnOk result (AreKnown network.now known.new) }
    ensures wanted { OnOk result (AreWanted network.now wanted.new) }
    ensures why { IfOk result (λ why. why
        ≡ slice_get (broken_whys (demand_input network.now).row_rules [] row.now) 0) }
    ensures all { IfOk result (λ why. IfNone why (sum_between (λ _. everyone) 0 wanted.new
        ≡ sum_between (λ _. everyone) 0 wanted.old + unsigned_abs row.now.customers)) }
    ensures added { IfOk result (λ why. IfNone why ((index : ℕ)
        → sum_between (goes_over network.now index) 0 wanted.new
        ≡ sum_between (goes_over network.now index) 0 wanted.old
        + row_load network.now index row.now)) }
{
    let Some(left) = stop_at(network, &row.left) else {
        return Ok(Some(RowWhy::UnknownStop));
    };
    let Some(right) = stop_at(network, &row.right) else {
        return Ok(Some(RowWhy::UnknownStop));
    };
    if !row.has_customers() {
        return Ok(None);
    }
    if !known.joins(alloc, network, left, right)? {
        return Ok(Some(RowWhy::NoPath));
    }
    wanted.add(alloc, network, left, right, amount(&row.customers))?;
    Ok(None)
}

// The index of the stop of an id.
fn stop_at(network: &walks::Network, id: &i64) -> Option<usize>
    ensures { result ≡ position (int_eq id.now) network.now.stops }
{
    network.stop_index(*id)
}

// How many customers there are; no row has fewer than none.
fn amount(customers: &i64) -> u64
    ensures { result ≡ unsigned_abs customers.now }
{
    customers.unsigned_abs()
}
