// Events and connections of the rows of a day.
ghost use Rattle.std.specs.Prelude.{◌≡◌, ◌≤◌, length, map, filter, option_copied, zip, All, IfOk};
ghost use Rattle.tables.specs.Inputs.{UnlessFault};
ghost use Rattle.event_tables.specs.ExpandedFiles.{AreExpandedEvents};
ghost use Rattle.event_tables.specs.Places.{IsOneOf};
ghost use Rattle.journeys.specs.JourneyNets.{connection_of, is_usable, kind_of, time_faults_over, timed, times_over};
ghost use Rattle.connections.specs.declared.checked_net.TheConstants.{LATEST};

use connections::{Connection, EventKind, TimedEvent};
use event_tables::{ExpandedActivity, ExpandedEvent, disposed_times};
use plan_num::NoMemory;
use std::alloc::Global;
use tables::StageFault;

/// The times of events by a text, or their planned times where there is none.
pub(crate) fn times_of(
    alloc: Global,
    events: &[ExpandedEvent],
    times: Option<&[u8]>,
) -> Result<Vec<u64>, StageFault>
    requires { AreExpandedEvents events.now }
    ensures read { UnlessFault (time_faults_over events.now (option_copied times.entry))
        (λ all. all.items ≡ times_over events.now (option_copied times.entry)) result }
    ensures each { IfOk result (λ all. length all.items ≡ length events.now) }
    ensures soon { IfOk result (λ all. All (λ time. time ≤ LATEST) all.items) }
{
    match times {
        None => Ok(planned_times(alloc, events)?),
        Some(times) => {
            let rows = disposed_times(alloc, events, times)?;
            Ok(rows.iter().map(|row| row.time).collect(alloc)?)
        }
    }
}

// The planned times of events.
fn planned_times(alloc: Global, events: &[ExpandedEvent]) -> Result<Vec<u64>, NoMemory>
    ensures { IfOk result (λ times. times.items ≡ map (λ event. event.time) events.now) }
{
    Ok(
        events
            .iter()
            .map(|event| u64::from(event.time))
            .collect(alloc)?,
    )
}

/// The events at some times.
pub(crate) fn timed_events(
    alloc: Global,
    events: &[ExpandedEvent],
    times: &[u64],
) -> Result<Vec<TimedEvent>, NoMemory>
    requires { length times.now ≡ length events.now }
    ensures { IfOk result
        (λ timed_events. timed_events.items ≡ map timed (zip events.now times.now)) }
{
    let mut timed_events = Vec::with_capacity(alloc, events.len())?;
    for (index, event) in events.iter().enumerate() {
        timed_events.push(TimedEvent {
            kind: kind_of(event.kind),
            stop: event.stop,
            time: times[index],
        })?;
    }
    Ok(timed_events)
}

/// The activities that can be used at some times, as connections.
pub(crate) fn usable_connections(
    alloc: Global,
    activities: &[ExpandedActivity],
    times: &[u64],
) -> Result<Vec<Connection>, NoMemory>
    requires ends { All (λ activity. IsOneOf (length times.now) activity.from
        × IsOneOf (length times.now) activity.to) activities.now }
    requires soon { All (λ time. time ≤ LATEST) times.now }
    ensures { IfOk result (λ connections. connections.items
        ≡ map connection_of (filter (is_usable times.now) activities.now)) }
{
    let mut connections = Vec::new(alloc);
    for activity in activities {
        if is_usable(times, activity) {
            connections.push(connection_of(activity))?;
        }
    }
    Ok(connections)
}

// The connection of an activity.
fn connection_of(activity: &ExpandedActivity) -> Connection
    requires from { 1 ≤ activity.now.from }
    requires to { 1 ≤ activity.now.to }
    ensures { result ≡ connection_of activity.now }
{
    Connection {
        from: activity.from - 1,
        to: activity.to - 1,
    }
}

// The kind of an event of a net.
fn kind_of(kind: event_tables::EventKind) -> EventKind
    ensures { result ≡ kind_of kind }
{
    match kind {
        event_tables::EventKind::Departure => EventKind::Departure,
        event_tables::EventKind::Arrival => EventKind::Arrival,
    }
}

// Whether an activity can be used: its head is not before its tail and its least minutes.
fn is_usable(times: &[u64], activity: &ExpandedActivity) -> bool
    requires from { IsOneOf (length times.now) activity.now.from }
    requires to { IsOneOf (length times.now) activity.now.to }
    requires soon { All (λ time. time ≤ LATEST) times.now }
    ensures { result ≡ is_usable times.now activity.now }
{
    let tail = times[activity.from as usize - 1];
    let head = times[activity.to as usize - 1];
    tail + u64::from(activity.lower) <= head
}
