// Journeys from any hand, and events that are to prove that none arrives earlier.
use crate::journey_days::{Day, LATE, TWO_LINES, net_of};
use journeys::JourneyRule::{Early, Journey, Start, Step};
use journeys::{EventList, Found, JourneyNet, JourneyRule};
use plan_num::NoMemory;
use std::alloc::Global;
use std::process::Abort;
use std::test::Fail;

// The stops from which and to which, the least time of the start, a journey and a set by ids, and the
// first rule that they break.
type Row = (
    (i64, i64, i64),
    &'static [usize],
    &'static [usize],
    Option<JourneyRule>,
);

const CLOSED: &[usize] = &[1, 2, 3, 11, 17, 18];

const ROWS: [Row; 16] = [
    ((1, 3, 0), &[1, 2, 3, 4], CLOSED, None),
    ((3, 1, 21), &[], &[], None),
    // Event 11 can be reached by a change from event 18.
    ((1, 3, 0), &[1, 2, 3, 4], &[1, 2, 3, 17, 18], Some(Step)),
    ((1, 3, 0), &[1, 2, 3, 4], &[1, 2, 3, 11, 18], Some(Start)),
    // An arrival at the stop, and a larger set that is closed.
    (
        (1, 3, 0),
        &[1, 2, 3, 4],
        &[1, 2, 3, 4, 11, 17, 18],
        Some(Early),
    ),
    (
        (1, 3, 0),
        &[1, 2, 3, 4],
        &[1, 2, 3, 11, 17, 18, 21, 22],
        None,
    ),
    // Not in order, twice, and not there.
    (
        (1, 3, 0),
        &[1, 2, 3, 4],
        &[2, 1, 3, 11, 17, 18],
        Some(Journey),
    ),
    (
        (1, 3, 0),
        &[1, 2, 3, 4],
        &[1, 1, 2, 3, 11, 17, 18],
        Some(Journey),
    ),
    (
        (1, 3, 0),
        &[1, 2, 3, 4],
        &[1, 2, 3, 11, 17, 18, 25],
        Some(Journey),
    ),
    ((1, 3, 0), &[1, 2, 3, 25], CLOSED, Some(Journey)),
    // No connection, a start that is too early, and another stop.
    ((1, 3, 0), &[1, 2, 4], CLOSED, Some(Journey)),
    ((1, 3, 1), &[1, 2, 3, 4], CLOSED, Some(Journey)),
    ((1, 3, 0), &[1, 2], CLOSED, Some(Journey)),
    // A later journey, over its own set and over all that can be reached.
    (
        (1, 3, 0),
        &[5, 6, 7, 8],
        &[5, 6, 7, 15, 19, 20],
        Some(Start),
    ),
    // None is claimed, though one is there.
    ((1, 3, 0), &[], CLOSED, Some(Start)),
    ((1, 3, 0), &[], &[1, 2, 3, 5, 11, 17, 18, 19], Some(Step)),
];

const LATE_ROWS: [Row; 2] = [
    ((1, 3, 0), &[1, 2, 5, 6], &[1, 2, 5], None),
    // The change to event 3 is missed.
    ((1, 3, 0), &[1, 2, 3, 4], &[1, 2, 3], Some(Journey)),
];

// The list of events of these ids.
fn listed(alloc: Global, ids: &[usize]) -> Result<EventList, NoMemory> {
    let mut events = EventList::new(alloc);
    for id in ids {
        events.push(id.wrapping_sub(1))?;
    }
    Ok(events)
}

// The first rule that is broken.
fn judged(alloc: Global, net: &JourneyNet, row: Row) -> Result<Option<JourneyRule>, NoMemory> {
    let ((from, to, start), journey, reached, _) = row;
    let found = Found {
        journey: listed(alloc, journey)?,
        reached: listed(alloc, reached)?,
    };
    Ok(net.check_reached(from, to, start, &found))
}

// Each row of a day breaks what it says.
fn judges(rt: &impl Abort, alloc: Global, day: Day, rows: &[Row]) -> Result<(), Fail> {
    let net = net_of(alloc, day)?;
    for (index, row) in rows.iter().enumerate() {
        let rule = judged(alloc, &net, *row)?;
        assert_eq!(rt; rule, row.3, "row {index}");
    }
    Ok(())
}

#[test]
fn first_rules(rt: HostRuntime) -> Result<(), Fail> {
    judges(&rt, rt.alloc(), TWO_LINES, &ROWS)
}

#[test]
fn over_disposed_times(rt: HostRuntime) -> Result<(), Fail> {
    judges(&rt, rt.alloc(), LATE, &LATE_ROWS)
}
