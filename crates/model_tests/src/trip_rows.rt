// Rows of trips and of vehicle schedules, and texts of them that are refused.
use crate::refusing::{DAY, Refused, bad_row, refuses};
use event_tables::{
    ScheduleKind, ScheduleRow, Trip, TripEnd, expanded_events, schedule_rows, trips,
};
use giv_files::{FileId, RowWhy};
use std::test::Fail;

const FIRST_TRIP: Trip = Trip {
    start: TripEnd {
        event: 1,
        periodic: 1,
        stop: 1,
        time: 5,
    },
    end: TripEnd {
        event: 2,
        periodic: 2,
        stop: 2,
        time: 9,
    },
    line: 8,
};

const FIRST_ROW: ScheduleRow = ScheduleRow {
    circulation: 1,
    vehicle: 1,
    number: 1,
    kind: ScheduleKind::Trip,
    run: FIRST_TRIP,
};

#[test]
fn rows_are_trips(rt: HostRuntime) -> Result<(), Fail> {
    let text = b"1; 1; 1; 5; 2; 2; 2; 9; 8\n3; 3; 2; 9; 4; 4; 3; 14; 8\n";
    let read = trips(rt.alloc(), Some(&[3, 1, 2]), text)?;
    assert_eq!(rt; read.len(), 2);
    assert_eq!(rt; read.get(0), Some(&FIRST_TRIP));
    Ok(())
}

// Where the stops are not known, they are not looked at.
#[test]
fn stops_of_trips_may_be_unknown(rt: HostRuntime) -> Result<(), Fail> {
    let without = trips(rt.alloc(), None, b"1; 1; 4; 5; 2; 2; 9; 9; 8\n")?;
    assert_eq!(rt; without.len(), 1);
    let backward = trips(rt.alloc(), None, b"1; 1; 4; 5; 2; 2; 9; 5; 8\n").err();
    assert_eq!(rt; backward, Some(bad_row(FileId::Trips, 1, RowWhy::Backward)));
    Ok(())
}

#[test]
fn rows_are_those_of_a_schedule(rt: HostRuntime) -> Result<(), Fail> {
    let events = expanded_events(rt.alloc(), DAY)?;
    let text =
        b"1; 1; 1; TRIP; 1; 1; 1; 5; 2; 2; 2; 9; 8\n1; 1; 2; EMPTY; 2; 2; 2; 9; 3; 3; 2; 9; 0\n";
    let rows = schedule_rows(rt.alloc(), &events, text)?;
    assert_eq!(rt; rows.len(), 2);
    assert_eq!(rt; rows.get(0), Some(&FIRST_ROW));
    assert_eq!(rt; rows.get(1).map(|row| row.kind), Some(ScheduleKind::Empty));
    Ok(())
}

// A trip of a schedule may seem to go backward.
#[test]
fn trips_of_a_schedule_are_not_looked_at(rt: HostRuntime) -> Result<(), Fail> {
    let events = expanded_events(rt.alloc(), DAY)?;
    let back = b"1; 1; 1; TRIP; 2; 1; 1; 5; 1; 2; 2; 4; 8\n";
    assert_eq!(rt; schedule_rows(rt.alloc(), &events, back)?.len(), 1);
    Ok(())
}

const REFUSED_TRIPS: [Refused; 7] = [
    (
        b"1; 1; 1; 5; 2; 2; 2; 9; 8\n1; 1; 1; 6; 2; 2; 2; 9; 8\n",
        2,
        RowWhy::RepeatedId,
    ),
    (b"1; 1; 1; 5; 2; 2; 4; 9; 8\n", 1, RowWhy::UnknownStop),
    (b"1; 1; 4; 5; 2; 2; 2; 9; 8\n", 1, RowWhy::UnknownStop),
    (b"1; 1; 1; 5; 2; 2; 2; 5; 8\n", 1, RowWhy::Backward),
    (b"1; 1; 1; 5; 2; 2; 2; 4; 8\n", 1, RowWhy::Backward),
    // Of the rules that a row breaks the first counts.
    (
        b"1; 1; 1; 5; 2; 2; 2; 9; 8\n1; 1; 4; 6; 2; 2; 2; 6; 8\n",
        2,
        RowWhy::RepeatedId,
    ),
    (b"1; 1; 4; 5; 2; 2; 2; 4; 8\n", 1, RowWhy::UnknownStop),
];

const UNKNOWN_EVENTS: [Refused; 3] = [
    (
        b"1; 1; 1; TRIP; 8; 1; 1; 5; 2; 2; 2; 9; 8\n",
        1,
        RowWhy::UnknownEvent,
    ),
    (
        b"1; 1; 1; TRIP; 1; 1; 1; 5; 8; 2; 2; 9; 8\n",
        1,
        RowWhy::UnknownEvent,
    ),
    (
        b"1; 1; 1; EMPTY; 1; 1; 1; 5; 8; 2; 2; 4; 0\n",
        1,
        RowWhy::UnknownEvent,
    ),
];

const BACKWARD_RIDES: [Refused; 6] = [
    // It ends before it starts.
    (
        b"1; 1; 1; EMPTY; 1; 1; 1; 5; 2; 2; 2; 4; 0\n",
        1,
        RowWhy::Backward,
    ),
    // It takes five minutes, and from event 1 to event 2 there are four.
    (
        b"1; 1; 1; EMPTY; 1; 1; 1; 5; 2; 2; 2; 10; 0\n",
        1,
        RowWhy::Backward,
    ),
    // Its start event is later, at a time of its own, or stands behind the other at one time.
    (
        b"1; 1; 1; EMPTY; 2; 1; 1; 5; 1; 2; 2; 5; 0\n",
        1,
        RowWhy::Backward,
    ),
    (
        b"1; 1; 1; EMPTY; 3; 1; 1; 5; 2; 2; 2; 5; 0\n",
        1,
        RowWhy::Backward,
    ),
    (
        b"1; 1; 1; EMPTY; 6; 1; 1; 5; 5; 2; 2; 5; 0\n",
        1,
        RowWhy::Backward,
    ),
    (
        b"1; 1; 1; EMPTY; 3; 1; 1; 5; 3; 2; 2; 5; 0\n",
        1,
        RowWhy::Backward,
    ),
];

#[test]
fn trips_are_refused_by_their_first_fault(rt: HostRuntime) -> Result<(), Fail> {
    refuses(&rt, FileId::Trips, &REFUSED_TRIPS)
}

#[test]
fn schedules_are_refused_by_their_first_fault(rt: HostRuntime) -> Result<(), Fail> {
    refuses(&rt, FileId::Schedule, &UNKNOWN_EVENTS)?;
    refuses(&rt, FileId::Schedule, &BACKWARD_RIDES)
}
