// Reading the rows of a schedule, one after the other.
ghost use Rattle.std.specs.Prelude.{◌≡◌, ◌<◌, length, IfOk, IfSome, []};
ghost use Rattle.std.specs.List.{list_all, range_with_len};
ghost use Rattle.vehicle_model.specs.ReadSchedules.{trip_in, begins, is_new, is_ride, leads_to};
ghost use Rattle.vehicle_model.specs.ReadSchedules.{trip_fits, empty_fits, row_fits, link_of};
ghost use Rattle.vehicle_model.specs.ReadSchedules.{nothing_read};
ghost use Rattle.vehicle_model.specs.Readers.{has_come, after_link, after_trip, after_row};
ghost use Rattle.vehicle_model.specs.Readers.{late_after, CanLink, IsOver, Knows, finished};

use crate::plan_fault::PlanFault;
use crate::row_form::{begins, follows_empty, follows_trip, goes_to, is_empty_row, leaves};
use crate::trips::Trips;
use assignment::Plan;
use event_tables::{ScheduleRow, Trip};
use plan_num::NoMemory;
use std::alloc::Global;
use std::marker::Model;

/// A reader of the rows of a schedule: the last row, the last trip, which trips have come, the links
/// so far as a plan, and the second trip of the first link that may not follow.
pub(crate) struct Reader {
    before: Option<ScheduleRow>,
    last: Option<usize>,
    come: Vec<bool>,
    plan: Plan,
    late: Option<usize>,
}

impl Drop for Reader {
    fn drop(self) {
        let Reader {
            before: _,
            last: _,
            come: _,
            plan: _,
            late: _,
        } = self;
    }
}

impl Model for Reader {
    ghost use Rattle.vehicle_model.specs.Readers.{ReaderParts};

    ghost Value = { ReaderParts };

    ghost view = { λ reader. record {
      before = reader.before;
      last = reader.last;
      come = reader.come.items;
      plan = reader.plan;
      late = reader.late;
    } };
}

impl Reader {
    /// A reader over trips, before all rows.
    pub(crate) fn new(alloc: Global, trips: &Trips) -> Result<Reader, NoMemory>
        ensures { IfOk result (Knows trips.now nothing_read []) }
    {
        let mut come = Vec::new(alloc);
        for _trip in 0..trips.len() {
            come.push(false)?;
        }
        Ok(Reader {
            before: None,
            last: None,
            come,
            plan: Plan::empty(alloc, trips.len())?,
            late: None,
        })
    }

    /// Whether a row has the form that is due before the row behind it.
    pub(crate) fn fits(&self, trips: &Trips, row: &ScheduleRow, after: Option<ScheduleRow>) -> bool
        requires { IsOver trips.now self.now }
        ensures { result ≡ row_fits trips.now self.now.before self.now.last (has_come self.now)
            row.now after }
    {
        row.circulation == row.vehicle
            && if is_empty_row(row) {
                self.empty_fits(trips, row, after)
            } else {
                self.trip_fits(trips, row)
            }
    }

    // Whether the row of a trip begins a vehicle, or stands behind an empty ride, and its trip is new.
    fn trip_fits(&self, trips: &Trips, row: &ScheduleRow) -> bool
        requires { IsOver trips.now self.now }
        ensures { result ≡ trip_fits trips.now self.now.before (has_come self.now) row.now }
    {
        (begins(self.before, row) || follows_empty(self.before, row))
            && self.is_new(trips.number_of(row))
    }

    // Whether a trip is there, and has not come.
    fn is_new(&self, trip: Option<usize>) -> bool
        requires { IfSome trip (λ i. i < length self.now.come) }
        ensures { result ≡ is_new (has_come self.now) trip }
    {
        match trip {
            Some(i) => !self.come[i],
            None => false,
        }
    }

    // Whether the row of an empty ride stands between two trips of its vehicle.
    fn empty_fits(&self, trips: &Trips, row: &ScheduleRow, after: Option<ScheduleRow>) -> bool
        requires { IsOver trips.now self.now }
        ensures { result ≡ empty_fits trips.now self.now.before self.now.last row.now after }
    {
        follows_trip(self.before, row) && leads_to(trips, self.last, row, after)
    }

    /// Reads a row that has the form that is due.
    pub(crate) fn take(&mut self, trips: &Trips, row: &ScheduleRow)
        requires over { IsOver trips.now self.old }
        requires link { IfSome (link_of (begins self.old.before row.now) self.old.last
            (trip_in trips.now row.now)) (CanLink self.old.plan) }
        ensures { self.new ≡ after_row row.now (after_trip (trip_in trips.now row.now)
            (after_link trips.now (link_of (begins self.old.before row.now) self.old.last
            (trip_in trips.now row.now)) self.old)) }
    {
        let trip = trips.number_of(row);
        let link = link_of(begins(self.before, row), self.last, trip);
        self.add_link(trips, link);
        self.add_trip(trip);
        self.before = Some(*row);
    }

    // Adds a link, if there is one.
    fn add_link(&mut self, trips: &Trips, link: Option<(usize, usize)>)
        requires over { IsOver trips.now self.old }
        requires link { IfSome link (CanLink self.old.plan) }
        ensures { self.new ≡ after_link trips.now link self.old }
    {
        if let Some((i, j)) = link {
            self.plan.link(i, j);
            self.late = late_after(trips, i, j, self.late);
        }
    }

    // Notes that a trip has come, if there is one.
    fn add_trip(&mut self, trip: Option<usize>)
        requires { IfSome trip (λ j. j < length self.old.come) }
        ensures { self.new ≡ after_trip trip self.old }
    {
        if let Some(j) = trip {
            self.last = Some(j);
            self.come[j] = true;
        }
    }
    /// The plan behind all rows, or the fault that is left: a trip that has not come, else one that
    /// may not follow.
    pub(crate) fn finish(self, _trips: &Trips) -> Result<Plan, PlanFault>
        requires { IsOver _trips.now self }
        ensures { result ≡ finished _trips.now self }
    {
        if !self.all_come() {
            return Err(PlanFault::Trips { row: 0 });
        }
        let Reader {
            before: _,
            last: _,
            come: _,
            plan,
            late,
        } = self;
        match late {
            Some(trip) => Err(PlanFault::Follow { trip }),
            None => Ok(plan),
        }
    }

    // Whether every trip has come.
    fn all_come(&self) -> bool
        ensures { result
            ≡ list_all (has_come self.now) (range_with_len 0 (length self.now.come)) }
    {
        for i in 0..self.come.len() {
            if !self.come[i] {
                return false;
            }
        }
        true
    }
}

// The link from a trip to another, if no vehicle begins between them.
fn link_of(begins: bool, last: Option<usize>, trip: Option<usize>) -> Option<(usize, usize)>
    ensures { result ≡ link_of begins last trip }
{
    match (begins, last, trip) {
        (false, Some(i), Some(j)) => Some((i, j)),
        _ => None,
    }
}

// The second trip of a link, where it may not follow and none was late before.
fn late_after(trips: &Trips, i: usize, j: usize, late: Option<usize>) -> Option<usize>
    requires from { i < length trips.now.trips }
    requires to { j < length trips.now.trips }
    ensures { result ≡ late_after trips.now i j late }
{
    match late {
        Some(late) => Some(late),
        None => {
            if trips.may_follow(i, j) {
                None
            } else {
                Some(j)
            }
        }
    }
}

// Whether the row behind an empty ride is that of a trip of the same vehicle to which it goes.
fn leads_to(
    trips: &Trips,
    last: Option<usize>,
    row: &ScheduleRow,
    after: Option<ScheduleRow>,
) -> bool
    requires { IfSome last (λ i. i < length trips.now.trips) }
    ensures { result ≡ leads_to trips.now last row.now after }
{
    match (last, after) {
        (Some(i), Some(after)) => {
            after.vehicle == row.vehicle
                && !is_empty_row(&after)
                && is_ride(trips, i, &row.run, trips.number_of(&after))
        }
        _ => false,
    }
}

// Whether an empty ride leaves a trip and, if one comes next, goes to that one.
fn is_ride(trips: &Trips, i: usize, ride: &Trip, next: Option<usize>) -> bool
    requires from { i < length trips.now.trips }
    requires to { IfSome next (λ j. j < length trips.now.trips) }
    ensures { result ≡ is_ride trips.now i ride.now next }
{
    match next {
        Some(j) => {
            leaves(&trips.trip(i), ride) && goes_to(trips.dead_minutes(i, j), &trips.trip(j), ride)
        }
        None => leaves(&trips.trip(i), ride),
    }
}
