// The trips of a day, and their events.
ghost use Rattle.std.specs.Prelude.{◌≡◌, ◌+◌, ◌*◌, ◌≤◌, ◌<◌, ◌++◌, length, All, IfOk, OnOk};
ghost use Rattle.roll_out.specs.DayTrips.{day_events, day_event, trip_events, trip_end_at, trip_row};
ghost use Rattle.roll_out.specs.Plans.{IsPlan, IsTrip, event_total, plan_trips, trip_total, trips_by};
ghost use Rattle.roll_out.specs.RolloutStage.{trip_rows};

use crate::plan::RunPlan;
use crate::timed_event::TimedEvent;
use event_tables::{ExpandedEvent, Trip, TripEnd};
use plan_num::NoMemory;
use std::alloc::Global;
use std::marker::Model;

/// A trip: the id of its first event of the day, its start, and the events of its run. Contracts
/// see it as these three.
#[derive(Drop)]
pub(crate) struct DayTrip {
    first: u32,
    start: u32,
    run: Vec<TimedEvent>,
}

impl Model for DayTrip {
    ghost use Rattle.roll_out.specs.DayTrips.{TripParts};

    ghost Value = { TripParts };

    ghost view = { λ trip. record {
      first = trip.first;
      start = trip.start;
      run = trip.run.items;
    } };
}

impl DayTrip {
    pub(crate) fn first(&self) -> u32
        ensures { result ≡ self.now.first }
    {
        self.first
    }

    pub(crate) fn start(&self) -> u32
        ensures { result ≡ self.now.start }
    {
        self.start
    }

    pub(crate) fn run(&self) -> &[TimedEvent]
        ensures { result.now ≡ self.now.run }
    {
        &self.run
    }

    // The end of the trip at a place of its events.
    fn end_at(&self, place: usize) -> TripEnd
        requires trip { IsTrip self.now }
        requires place { place < length self.now.run }
        ensures { result ≡ trip_end_at self.now place }
    {
        let at = self.run[place];
        TripEnd {
            event: self.first + place as u32,
            periodic: at.event.id,
            stop: at.event.stop,
            time: self.start + at.minutes,
        }
    }

    // The trip by its ends and its line.
    fn row(&self) -> Trip
        requires { IsTrip self.now }
        ensures { result ≡ trip_row self.now }
    {
        Trip {
            start: self.end_at(0),
            end: self.end_at(self.run.len() - 1),
            line: self.run[0].event.line,
        }
    }
}

/// How many trips plans come to.
pub(crate) fn trip_count(plans: &[RunPlan]) -> usize
    requires plans { All IsPlan plans.now }
    requires few { length plans.now ≤ 4000 }
    ensures { result ≡ trip_total plans.now }
{
    let mut count = 0;
    for plan in plans {
        count += plan.trips() as usize;
    }
    count
}

/// How many events the trips of plans have.
pub(crate) fn event_count(plans: &[RunPlan]) -> usize
    requires plans { All IsPlan plans.now }
    requires few { length plans.now ≤ 4000 }
    ensures { result ≡ event_total plans.now }
{
    let mut count = 0;
    for plan in plans {
        count += plan_events(plan);
    }
    count
}

// How many events the trips of a plan have.
pub(crate) fn plan_events(plan: &RunPlan) -> usize
    requires { IsPlan plan.now }
    ensures count { result ≡ plan.now.trips * length plan.now.run }
    ensures few { result ≤ 40324000 }
{
    plan.trips() as usize * plan.events().len()
}

/// The trips of plans, whose events are numbered from 1.
pub(crate) fn day_trips(
    alloc: Global,
    period: u32,
    plans: &[RunPlan],
) -> Result<Vec<DayTrip>, NoMemory>
    requires period { period ≤ 720 }
    requires plans { All IsPlan plans.now }
    requires trips { trip_total plans.now ≤ 2000 }
    requires events { event_total plans.now ≤ 100000 }
    ensures { IfOk result (λ trips. trips.items ≡ trips_by period 1 plans.now) }
{
    let mut trips = Vec::new(alloc);
    let mut first = 1;
    for plan in plans {
        add_trips(alloc, period, first, plan, &mut trips)?;
        first += plan_events(plan) as u32;
    }
    Ok(trips)
}

// The trips of a plan are added, whose events are numbered from an id on.
fn add_trips(
    alloc: Global,
    period: u32,
    first: u32,
    plan: &RunPlan,
    trips: &mut Vec<DayTrip>,
) -> Result<(), NoMemory>
    requires period { period ≤ 720 }
    requires first { first ≤ 100001 }
    requires plan { IsPlan plan.now }
    requires few { plan.now.trips ≤ 2000 }
    ensures { OnOk result (trips.new.items ≡ trips.old.items ++ plan_trips period first plan.now) }
{
    let run = plan.events();
    let start = plan.start();
    let size = run.len() as u32;
    for earlier in 0..plan.trips() {
        trips.push(DayTrip {
            first: first + earlier * size,
            start: start + earlier * period,
            run: Vec::from_slice(alloc, run)?,
        })?;
    }
    Ok(())
}

/// The events of trips.
pub(crate) fn day_events(alloc: Global, trips: &[DayTrip]) -> Result<Vec<ExpandedEvent>, NoMemory>
    requires { All IsTrip trips.now }
    ensures { IfOk result (λ events. events.items ≡ day_events trips.now) }
{
    let mut events = Vec::new(alloc);
    for trip in trips {
        add_events(trip, &mut events)?;
    }
    Ok(events)
}

// The events of a trip are added.
fn add_events(trip: &DayTrip, events: &mut Vec<ExpandedEvent>) -> Result<(), NoMemory>
    requires { IsTrip trip.now }
    ensures { OnOk result (events.new.items ≡ events.old.items ++ trip_events trip.now) }
{
    let (first, start, run) = (trip.first(), trip.start(), trip.run());
    for place in 0..run.len() {
        events.push(day_event(start, first + place as u32, &run[place]))?;
    }
    Ok(())
}

// The event of a trip with an id, where the trip starts at a time.
fn day_event(start: u32, id: u32, at: &TimedEvent) -> ExpandedEvent
    requires start { start ≤ 2000000 }
    requires soon { at.now.minutes ≤ 402880000 }
    ensures { result ≡ day_event start (id, at.now) }
{
    ExpandedEvent {
        id,
        periodic: at.event.id,
        kind: at.event.kind,
        time: start + at.minutes,
        stop: at.event.stop,
    }
}

/// The rows of trips.
pub(crate) fn trip_rows(alloc: Global, trips: &[DayTrip]) -> Result<Vec<Trip>, NoMemory>
    requires { All IsTrip trips.now }
    ensures { IfOk result (λ rows. rows.items ≡ trip_rows trips.now) }
{
    let mut rows = Vec::new(alloc);
    for trip in trips {
        rows.push(trip.row())?;
    }
    Ok(rows)
}
