// Reading plans.
ghost use Rattle.std.specs.Prelude.{◌≡◌, ◌+◌, ◌<◌, length, slice_get, slice_index_or, option_map};
ghost use Rattle.std.specs.Prelude.{All, IfOk};
ghost use Rattle.event_tables.specs.Cells.{schedule_row, AreSmall};
ghost use Rattle.tables.specs.RowsOfTables.{records_by, numbered_by};
ghost use Rattle.tables.specs.Tables.{no_row};
ghost use Rattle.vehicle_model.specs.DrivenSchedules.{ReadsWhatIsDriven};
ghost use Rattle.link_plans.specs.Plans.{IsPlan};
ghost use Rattle.vehicle_model.specs.ReadSchedules.{plan_faults, plan_of, plan_by, links_in};
ghost use Rattle.vehicle_model.specs.ReadSchedules.{nothing_read, row_faults, PlanGives};
ghost use Rattle.vehicle_model.specs.Trips.{links_of};

use crate::plan_fault::PlanFault;
use crate::reader::Reader;
use crate::schedule_cells::row_at;
use crate::trips::Trips;
use assignment::Plan;
use event_tables::ScheduleRow;
use std::alloc::Global;
use tables::{Table, columns, read_table};

/// The plan of a text over some trips, or its first fault: that it is no table of a schedule, else
/// that its rows are not those of the trips, else that a trip may not follow the one before it. So it
/// takes exactly the schedules of vehicles that drive each trip once, in any order of vehicles, and
/// gives after each trip the one that its vehicle drives next.
pub fn read_plan(alloc: Global, bytes: &[u8], trips: &Trips) -> Result<Plan, PlanFault>
    ensures read { PlanGives (plan_faults trips.now bytes.now) (plan_of trips.now bytes.now) result }
    ensures plan { IfOk result (IsPlan (links_of trips.now)) }
    ensures driven { ReadsWhatIsDriven trips.now bytes.now result }
{
    trips.are_trips();
    let table = read_table(alloc, bytes, &columns!(Schedule))?;
    read_rows(alloc, &table, trips)
}

// The plan of the rows of a table.
fn read_rows(alloc: Global, table: &Table<13>, trips: &Trips) -> Result<Plan, PlanFault>
    requires { All (λ row. AreSmall row.cells) table.now }
    ensures read { PlanGives (row_faults trips.now (numbered_by schedule_row table.now))
        (plan_by (length trips.now.trips)
        (links_in trips.now nothing_read (records_by schedule_row table.now))) result }
    ensures plan { IfOk result (IsPlan (links_of trips.now)) }
{
    let mut reader = Reader::new(alloc, trips)?;
    for i in 0..table.len() {
        let row = row_at(table, i);
        if !reader.fits(trips, &row, row_after(table, i)) {
            return Err(PlanFault::Trips {
                row: table.number(i),
            });
        }
        reader.take(trips, &row);
    }
    reader.finish(trips)
}

// The row behind one.
fn row_after(table: &Table<13>, i: usize) -> Option<ScheduleRow>
    requires small { All (λ row. AreSmall row.cells) table.now }
    requires within { i < length table.now }
    ensures { result ≡ option_map (λ row. schedule_row row.cells) (slice_get table.now (i + 1)) }
{
    let count = table.len();
    if i + 1 < count {
        Some(row_at(table, i + 1))
    } else {
        None
    }
}
