// Writing plans.
ghost use Rattle.std.specs.Prelude.{◌≡◌, ◌+◌, ◌<◌, ◌≤◌, ◌++◌, true, length, is_some, Some, All};
ghost use Rattle.std.specs.Prelude.{IfOk, OnOk};
ghost use Rattle.event_tables.specs.Cells.{schedule_cells};
ghost use Rattle.tables.specs.Columns.{schedule_columns};
ghost use Rattle.tables.specs.Writing.{InColumns};
ghost use Rattle.vehicle_model.specs.Plans.{starts};
ghost use Rattle.link_plans.specs.Plans.{IsPlan};
ghost use Rattle.vehicle_model.specs.ReadSchedules.{IsReadBack};
ghost use Rattle.vehicle_model.specs.Schedules.{tour, trip_row, empty_row, vehicle_rows, plan_rows};
ghost use Rattle.vehicle_model.specs.Schedules.{plan_text};
ghost use Rattle.vehicle_model.specs.Trips.{link_minutes, links_of, AreTrips};

use crate::cost::minutes_of;
use crate::trips::Trips;
use assignment::Plan;
use event_tables::{ScheduleKind, ScheduleRow, Trip, TripEnd, schedule_text};
use plan_num::{NoMemory, Text};
use std::alloc::Global;

/// The text of a plan as a vehicle schedule. It is read back to the plan.
pub fn write_plan(alloc: Global, trips: &Trips, plan: &Plan) -> Result<Text, NoMemory>
    requires { IsPlan (links_of trips.now) plan.now }
    ensures text { IfOk result (λ text. text ≡ plan_text trips.now plan.now) }
    ensures back { IfOk result (IsReadBack trips.now plan.now) }
{
    let rows = plan_rows(alloc, trips, plan)?;
    schedule_text(alloc, &rows)
}

// The rows of a plan.
fn plan_rows(alloc: Global, trips: &Trips, plan: &Plan) -> Result<Vec<ScheduleRow>, NoMemory>
    requires { IsPlan (links_of trips.now) plan.now }
    ensures rows { IfOk result (λ rows. rows.items ≡ plan_rows trips.now plan.now) }
    ensures trips { AreTrips trips.now }
{
    trips.are_trips();
    let mut rows = Vec::new(alloc);
    let starts = starts(alloc, plan)?;
    for index in 0..starts.len() {
        push_vehicle(trips, plan, index as u32 + 1, starts[index], &mut rows)?;
    }
    Ok(rows)
}

// The first trips of the vehicles.
fn starts(alloc: Global, plan: &Plan) -> Result<Vec<usize>, NoMemory>
    ensures { IfOk result (λ firsts. firsts.items ≡ starts plan.now) }
{
    let firsts = (0..plan.len())
        .filter(|j| !plan.is_next(*j))
        .collect(alloc)?;
    Ok(firsts)
}

// Adds the rows of a vehicle, by its number and its first trip.
fn push_vehicle(
    trips: &Trips,
    plan: &Plan,
    vehicle: u32,
    first: usize,
    rows: &mut Vec<ScheduleRow>,
) -> Result<(), NoMemory>
    requires plan { IsPlan (links_of trips.now) plan.now }
    requires first { first < length plan.now }
    ensures { OnOk result (rows.new.items ≡ rows.old.items
        ++ vehicle_rows trips.now vehicle (tour (length plan.now) plan.now (Some first))) }
{
    rows.push(trip_row(trips, vehicle, 1, first))?;
    let mut number = 1;
    let mut last = first;
    for _turn in 1..trips.len() {
        match plan.next(last) {
            Some(next) => {
                rows.push(empty_row(trips, vehicle, number + 1, last, next))?;
                rows.push(trip_row(trips, vehicle, number + 2, next))?;
                number += 2;
                last = next;
            }
            None => return Ok(()),
        }
    }
    Ok(())
}

// The row of a trip.
fn trip_row(trips: &Trips, vehicle: u32, number: u32, i: usize) -> ScheduleRow
    requires { i < length trips.now.trips }
    ensures { result ≡ trip_row trips.now vehicle number i }
{
    ScheduleRow {
        circulation: vehicle,
        vehicle,
        number,
        kind: ScheduleKind::Trip,
        run: trips.trip(i),
    }
}

// The row of the empty ride of a link.
fn empty_row(trips: &Trips, vehicle: u32, number: u32, i: usize, j: usize) -> ScheduleRow
    requires { is_some (link_minutes trips.now i j) ≡ true }
    ensures { result ≡ empty_row trips.now vehicle number i j }
{
    let before = trips.trip(i).end;
    let after = trips.trip(j).start;
    let time = u64::from(before.time) + minutes_of(trips, i, j);
    ScheduleRow {
        circulation: vehicle,
        vehicle,
        number,
        kind: ScheduleKind::Empty,
        run: Trip {
            start: before,
            end: TripEnd {
                event: after.event,
                periodic: after.periodic,
                stop: after.stop,
                time: time as u32,
            },
            line: 0,
        },
    }
}
