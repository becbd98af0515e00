// The rules of runs: where they are broken.
ghost use Rattle.std.specs.Prelude.{◌≡◌, ◌<◌, ◌≤◌, ◌⊎◌, MatchBool, length, map, All, IfOk, OnOk, ◌++◌, ◌∷◌, [], if◌then◌else◌};
ghost use Rattle.std.specs.List.{flat_map};
ghost use Rattle.event_tables.specs.Places.{AreNumbered, IsOneOf};
ghost use Rattle.event_tables.specs.RunRules.{breaks, broken_in, is_placed, is_stray, lacks_way, leads, stray_activities, unjoined_in, way_on};

use crate::network::TimedNetwork;
use crate::run::Run;
use event_tables::{EventKind, PeriodicActivity, PeriodicEvent, PeriodicKind};
use plan_num::NoMemory;
use std::alloc::Global;

/// The events at which runs are broken: those of the wrong kind, since a run alternates from a
/// departure on, and the last ones of runs of odd length.
pub(crate) fn broken_events(alloc: Global, runs: &[Run]) -> Result<Vec<u32>, NoMemory>
    ensures { IfOk result
        (λ ids. ids.items ≡ map (λ event. event.id) (flat_map broken_in runs.now)) }
{
    let mut ids = Vec::new(alloc);
    for run in runs {
        add_broken(run.events(), &mut ids)?;
    }
    Ok(ids)
}

// The ids of the events at which a run is broken are added.
fn add_broken(run: &[PeriodicEvent], ids: &mut Vec<u32>) -> Result<(), NoMemory>
    ensures { OnOk result (ids.new.items
        ≡ ids.old.items ++ map (λ event. event.id) (broken_in run.now)) }
{
    for place in 0..run.len() {
        add_if(breaks(run.len(), place, &run[place]), run[place].id, ids)?;
    }
    Ok(())
}

// Whether a run of so many events is broken at the event at a place.
fn breaks(size: usize, place: usize, event: &PeriodicEvent) -> bool
    requires { place < size }
    ensures { result ≡ breaks size (place, event.now) }
{
    usize::from(event.kind.place()) != place % 2 || (place + 1 == size && size % 2 == 1)
}

// An id is added, if some test was passed.
fn add_if(passed: bool, id: u32, ids: &mut Vec<u32>) -> Result<(), NoMemory>
    ensures { OnOk result (ids.new.items ≡ ids.old.items ++ (if passed then id ∷ [] else [])) }
{
    if passed {
        ids.push(id)?;
    }
    Ok(())
}

/// The events that are not joined to the next one of their run by exactly one drive or wait.
pub(crate) fn unjoined_events(
    alloc: Global,
    network: &TimedNetwork,
    runs: &[Run],
) -> Result<Vec<u32>, NoMemory>
    requires { All (All (λ event. IsOneOf (length network.now.events) event.id)) runs.now }
    ensures { IfOk result (λ ids. ids.items
        ≡ map (λ event. event.id) (flat_map (unjoined_in network.now.activities) runs.now)) }
{
    let mut ids = Vec::new(alloc);
    for run in runs {
        add_unjoined(network, run.events(), &mut ids)?;
    }
    Ok(ids)
}

// The ids of the events of a run that are not so are added.
fn add_unjoined(
    network: &TimedNetwork,
    run: &[PeriodicEvent],
    ids: &mut Vec<u32>,
) -> Result<(), NoMemory>
    requires { All (λ event. IsOneOf (length network.now.events) event.id) run.now }
    ensures { OnOk result (ids.new.items
        ≡ ids.old.items ++ map (λ event. event.id) (unjoined_in network.now.activities run.now)) }
{
    for place in 1..run.len() {
        let event = run[place - 1];
        let ways = network.ways_from(event.id);
        add_if(lacks_way(&event, &run[place], ways), event.id, ids)?;
    }
    Ok(())
}

// Whether not exactly one activity leads from an event to the next one of its run.
fn lacks_way(event: &PeriodicEvent, next: &PeriodicEvent, activities: &[PeriodicActivity]) -> bool
    ensures { result ≡ lacks_way activities.now (event.now, next.now) }
{
    let mut count: usize = 0;
    for activity in activities {
        if leads(event, next, activity) {
            count += 1;
        }
    }
    count != 1
}

/// Whether an activity leads from an event to the next one of its run.
pub(crate) fn leads(
    event: &PeriodicEvent,
    next: &PeriodicEvent,
    activity: &PeriodicActivity,
) -> bool
    ensures { result ≡ leads (event.now, next.now) activity.now }
{
    activity.kind.place() == way_on(event.kind).place()
        && activity.from == event.id
        && activity.to == next.id
}

// The kind of the activity that leads from an event of a kind to the next one of its run.
fn way_on(kind: EventKind) -> PeriodicKind
    ensures { result ≡ way_on kind }
{
    match kind {
        EventKind::Departure => PeriodicKind::Drive,
        EventKind::Arrival => PeriodicKind::Wait,
    }
}

/// The activities that join no two events in the way of their kind, and the drives that may take no
/// time.
pub(crate) fn stray_activities(
    alloc: Global,
    events: &[PeriodicEvent],
    activities: &[PeriodicActivity],
) -> Result<Vec<u32>, NoMemory>
    requires { AreNumbered (λ event. event.id) events.now }
    ensures { IfOk result (λ ids. ids.items
        ≡ map (λ activity. activity.id) (stray_activities events.now activities.now)) }
{
    let mut ids = Vec::new(alloc);
    for activity in activities {
        if is_stray(events, activity) {
            ids.push(activity.id)?;
        }
    }
    Ok(ids)
}

// Whether an activity is so.
fn is_stray(events: &[PeriodicEvent], activity: &PeriodicActivity) -> bool
    requires { AreNumbered (λ event. event.id) events.now }
    ensures { result ≡ is_stray events.now activity.now }
{
    let is_drive = matches!(activity.kind, PeriodicKind::Drive);
    !is_placed(events, activity) || (is_drive && activity.lower == 0)
}

// Whether an activity joins two events in the way of its kind. Ids of events are their places.
fn is_placed(events: &[PeriodicEvent], activity: &PeriodicActivity) -> bool
    requires { AreNumbered (λ event. event.id) events.now }
    ensures { result ≡ is_placed events.now activity.now }
{
    if is_unknown(activity.from, events.len()) {
        return false;
    }
    if is_unknown(activity.to, events.len()) {
        return false;
    }
    let event = &events[activity.from as usize - 1];
    let next = &events[activity.to as usize - 1];
    activity.kind.joins(event, next)
}

// Whether an id is none of so many, which count from 1.
fn is_unknown(id: u32, count: usize) -> bool
    ensures { MatchBool result ((id < 1) ⊎ (count < id)) ((1 ≤ id) × (id ≤ count)) }
{
    id == 0 || id as usize > count
}
