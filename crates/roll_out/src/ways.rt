// The drives and waits of trips, and numbers of activities.
ghost use Rattle.std.specs.Prelude.{◌≡◌, ◌≤◌, ◌++◌, length, All, IfOk, OnOk};
ghost use Rattle.roll_out.specs.DayActivities.{copy_of, day_ways, trip_ways, way_from, way_kind, with_numbers};
ghost use Rattle.roll_out.specs.Plans.{IsTrip};

use crate::trip::DayTrip;
use event_tables::{ActivityKind, EventKind, ExpandedActivity, PeriodicActivity};
use plan_num::NoMemory;
use std::alloc::Global;

/// How many drives and waits trips have.
pub(crate) fn way_count(trips: &[DayTrip]) -> usize
    requires trips { All IsTrip trips.now }
    requires few { length trips.now ≤ 2000 }
    ensures count { result ≡ length (day_ways trips.now) }
    ensures few { result ≤ 8000000 }
{
    let mut count = 0;
    for trip in trips {
        count += trip_way_count(trip);
    }
    count
}

// How many drives and waits a trip has.
fn trip_way_count(trip: &DayTrip) -> usize
    requires { IsTrip trip.now }
    ensures count { result ≡ length (trip_ways trip.now) }
    ensures few { result ≤ 4000 }
{
    let mut count = 0;
    for at in trip.run() {
        if at.way.is_some() {
            count += 1;
        }
    }
    count
}

/// The drives and waits of trips are added.
pub(crate) fn add_ways(
    trips: &[DayTrip],
    activities: &mut Vec<ExpandedActivity>,
) -> Result<(), NoMemory>
    requires { All IsTrip trips.now }
    ensures { OnOk result (activities.new.items ≡ activities.old.items ++ day_ways trips.now) }
{
    for trip in trips {
        add_trip_ways(trip, activities)?;
    }
    Ok(())
}

// The drives and waits of a trip are added.
fn add_trip_ways(trip: &DayTrip, activities: &mut Vec<ExpandedActivity>) -> Result<(), NoMemory>
    requires { IsTrip trip.now }
    ensures { OnOk result (activities.new.items ≡ activities.old.items ++ trip_ways trip.now) }
{
    let (first, run) = (trip.first(), trip.run());
    for place in 0..run.len() {
        let at = &run[place];
        add_way(at.event.kind, first + place as u32, at.way, activities)?;
    }
    Ok(())
}

// The copy of an activity, if it is there, from the event of a kind and an id to the next one is
// added.
fn add_way(
    kind: EventKind,
    id: u32,
    way: Option<PeriodicActivity>,
    activities: &mut Vec<ExpandedActivity>,
) -> Result<(), NoMemory>
    requires { id ≤ 100000 }
    ensures { OnOk result (activities.new.items ≡ activities.old.items ++ way_from kind id way) }
{
    if let Some(activity) = way {
        activities.push(copy_of(way_kind(kind), &activity, id, id + 1))?;
    }
    Ok(())
}

// The kind of what leads on from an event of a kind: a drive or a wait.
fn way_kind(kind: EventKind) -> ActivityKind
    ensures { result ≡ way_kind kind }
{
    match kind {
        EventKind::Departure => ActivityKind::Drive,
        EventKind::Arrival => ActivityKind::Wait,
    }
}

/// The copy, of a kind, of an activity between the events of two ids, without a number.
pub(crate) fn copy_of(
    kind: ActivityKind,
    activity: &PeriodicActivity,
    from: u32,
    to: u32,
) -> ExpandedActivity
    ensures { result ≡ copy_of kind activity.now from to }
{
    ExpandedActivity {
        id: 0,
        periodic: activity.id,
        kind,
        from,
        to,
        lower: activity.lower,
        upper: activity.upper,
    }
}

/// Activities with their places as ids, from 1.
pub(crate) fn with_numbers(
    alloc: Global,
    activities: &[ExpandedActivity],
) -> Result<Vec<ExpandedActivity>, NoMemory>
    requires { length activities.now ≤ 500000 }
    ensures { IfOk result (λ numbered. numbered.items ≡ with_numbers activities.now) }
{
    let mut numbered = Vec::new(alloc);
    for place in 0..activities.len() {
        numbered.push(ExpandedActivity {
            id: place as u32 + 1,
            ..activities[place]
        })?;
    }
    Ok(numbered)
}
