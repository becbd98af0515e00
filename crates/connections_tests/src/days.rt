// A small day: the way that arrives first, what proves it, and what is refused.
use connections::{Connection, EventKind, EventList, Found, JourneyNet, JourneyRule, TimedEvent};
use plan_num::NoMemory;
use std::alloc::Global;
use std::process::Abort;
use std::test::Fail;

// An event: whether it is an arrival, its stop and its time. Their places are their ranks.
type Event = (bool, u32, u64);

// From stop 1 to stop 2, and on to stop 3 by the same ride, or with a change by one that overtakes
// it.
const EVENTS: [Event; 6] = [
    (false, 1, 0),
    (true, 2, 10),
    (false, 2, 12),
    (false, 2, 15),
    (true, 3, 25),
    (true, 3, 30),
];

const CONNECTIONS: [(u32, u32); 5] = [(0, 1), (1, 2), (1, 3), (2, 5), (3, 4)];

// The kind of an event.
fn kind_of(arrives: bool) -> EventKind {
    if arrives {
        EventKind::Arrival
    } else {
        EventKind::Departure
    }
}

// The events at these times.
fn events_of(alloc: Global, events: &[Event]) -> Result<Vec<TimedEvent>, NoMemory> {
    let mut all = Vec::new(alloc);
    for (arrives, stop, time) in events {
        all.push(TimedEvent {
            kind: kind_of(*arrives),
            stop: *stop,
            time: *time,
        })?;
    }
    Ok(all)
}

// The day of these events and connections; none where they are no such.
fn day_of(
    alloc: Global,
    events: &[Event],
    connections: &[(u32, u32)],
) -> Result<Option<JourneyNet>, NoMemory> {
    let mut all = Vec::new(alloc);
    for (from, to) in connections {
        all.push(Connection {
            from: *from,
            to: *to,
        })?;
    }
    let ranks: [u64; 6] = [0, 1, 2, 3, 4, 5];
    JourneyNet::checked(alloc, events_of(alloc, events)?, all, &ranks)
}

// The list of these events.
fn listed(alloc: Global, events: &[usize]) -> Result<EventList, NoMemory> {
    let mut all = EventList::new(alloc);
    for event in events {
        all.push(*event)?;
    }
    Ok(all)
}

// Whether a list has these events.
fn has(events: &EventList, wanted: &[usize]) -> bool {
    events.as_slice() == wanted
}

#[test]
fn a_change_arrives_first(rt: HostRuntime) -> Result<(), Fail> {
    let net = day_of(rt.alloc(), &EVENTS, &CONNECTIONS)?.expect(&rt, "a day");
    let found = net.earliest(rt.alloc(), 1, 3, 0)?;
    assert!(rt; has(&found.journey, &[0, 1, 3, 4]));
    assert!(rt; has(&found.reached, &[0, 1, 2, 3]));
    assert_eq!(rt; net.check_reached(1, 3, 0, &found), None);
    Ok(())
}

#[test]
fn after_the_only_departure_there_is_no_way(rt: HostRuntime) -> Result<(), Fail> {
    let net = day_of(rt.alloc(), &EVENTS, &CONNECTIONS)?.expect(&rt, "a day");
    let found = net.earliest(rt.alloc(), 1, 3, 1)?;
    assert!(rt; has(&found.journey, &[]));
    assert!(rt; has(&found.reached, &[]));
    Ok(())
}

#[test]
fn a_later_way_is_refused(rt: HostRuntime) -> Result<(), Fail> {
    let net = day_of(rt.alloc(), &EVENTS, &CONNECTIONS)?.expect(&rt, "a day");
    let later = Found {
        journey: listed(rt.alloc(), &[0, 1, 2, 5])?,
        reached: listed(rt.alloc(), &[0, 1, 2, 3])?,
    };
    let answer = net.check_reached(1, 3, 0, &later);
    assert_eq!(rt; answer, Some(JourneyRule::Step));
    Ok(())
}

// Connections that are none: back in time, to an event that is not there, from an event to itself.
const REFUSED: [[(u32, u32); 1]; 3] = [[(1, 0)], [(0, 6)], [(2, 2)]];

#[test]
fn other_connections_are_refused(rt: HostRuntime) -> Result<(), Fail> {
    for connections in REFUSED {
        assert!(rt; day_of(rt.alloc(), &EVENTS, &connections)?.is_none());
    }
    Ok(())
}
