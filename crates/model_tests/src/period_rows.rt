// Rows of the files of a period, and texts of them that are refused.
use crate::refusing::{EVENTS, Refused, refuses};
use event_tables::{
    Direction, EventKind, PeriodicActivity, PeriodicEvent, PeriodicKind, PeriodicTime,
    periodic_activities, periodic_events, periodic_times,
};
use giv_files::{FileId, RowWhy};
use std::test::Fail;

const LAST_EVENT: PeriodicEvent = PeriodicEvent {
    id: 3,
    kind: EventKind::Departure,
    stop: 2,
    line: 7,
    direction: Direction::Backward,
    repetition: 2,
};

const SYNC: PeriodicActivity = PeriodicActivity {
    id: 2,
    kind: PeriodicKind::Sync,
    from: 3,
    to: 1,
    lower: 0,
    upper: 0,
};

#[test]
fn rows_are_events(rt: HostRuntime) -> Result<(), Fail> {
    let events = periodic_events(rt.alloc(), EVENTS)?;
    assert_eq!(rt; events.len(), 3);
    assert_eq!(rt; events.get(2), Some(&LAST_EVENT));
    Ok(())
}

#[test]
fn rows_are_activities(rt: HostRuntime) -> Result<(), Fail> {
    let events = periodic_events(rt.alloc(), EVENTS)?;
    let text = b"1; drive; 1; 2; 4; 5\n2; sync; 3; 1; 0; 0\n3; change; 2; 3; 2; 62\n";
    let activities = periodic_activities(rt.alloc(), &events, text)?;
    assert_eq!(rt; activities.len(), 3);
    assert_eq!(rt; activities.get(1), Some(&SYNC));
    Ok(())
}

#[test]
fn rows_are_times(rt: HostRuntime) -> Result<(), Fail> {
    let events = periodic_events(rt.alloc(), EVENTS)?;
    let text = b"1; 0\n2; 4\n3; 19\n";
    let times = periodic_times(rt.alloc(), FileId::TimesP, 20, &events, text)?;
    assert_eq!(rt; times.len(), 3);
    assert_eq!(rt; times.get(2), Some(&PeriodicTime { event: 3, time: 19 }));
    Ok(())
}

#[test]
fn no_events_have_no_times(rt: HostRuntime) -> Result<(), Fail> {
    let none = periodic_events(rt.alloc(), b"# no event\n")?;
    let times = periodic_times(rt.alloc(), FileId::TimesP, 20, &none, b"")?;
    assert!(rt; times.is_empty());
    Ok(())
}

const REFUSED_EVENTS: [Refused; 5] = [
    (b"2; departure; 1; 1; >; 1\n", 1, RowWhy::OrderGap),
    (
        b"1; departure; 1; 1; >; 1\n# 2\n\n1; arrival; 1; 1; >; 1\n",
        3,
        RowWhy::OrderGap,
    ),
    (
        b"1; departure; 1; 1; >; 1\n3; arrival; 1; 1; >; 1\n",
        2,
        RowWhy::OrderGap,
    ),
    (
        b"1; leaves; 1; 1; >; 1\n",
        1,
        RowWhy::UnknownWord { column: 2 },
    ),
    // A cell comes before every rule.
    (
        b"2; departure; 1; 1; >; 1\n2; departure; 0; 1; >; 1\n",
        2,
        RowWhy::OutOfRange { column: 3 },
    ),
];

const REFUSED_ACTIVITIES: [Refused; 7] = [
    (b"2; drive; 1; 2; 4; 5\n", 1, RowWhy::OrderGap),
    (b"1; drive; 1; 4; 4; 5\n", 1, RowWhy::UnknownEvent),
    (b"1; drive; 4; 1; 4; 5\n", 1, RowWhy::UnknownEvent),
    (
        b"1; drive; 1; 2; 4; 5\n2; wait; 2; 3; 4; 3\n",
        2,
        RowWhy::BoundsCrossed,
    ),
    // Of the rules that a row breaks the first counts.
    (b"2; drive; 1; 4; 5; 4\n", 1, RowWhy::OrderGap),
    (b"1; drive; 1; 4; 5; 4\n", 1, RowWhy::UnknownEvent),
    (
        b"1; drive; 0; 2; 4; 5\n",
        1,
        RowWhy::OutOfRange { column: 3 },
    ),
];

const REFUSED_TIMES: [Refused; 7] = [
    (b"1; 0\n3; 4\n", 2, RowWhy::OrderGap),
    (b"1; 0\n1; 4\n", 2, RowWhy::OrderGap),
    (b"1; 0\n2; 4\n3; 5\n4; 5\n", 4, RowWhy::UnknownEvent),
    (b"1; 0\n2; 20\n", 2, RowWhy::OutOfPeriod),
    (b"1; 21\n", 1, RowWhy::OutOfPeriod),
    (b"1; 0\n2; 4\n", 0, RowWhy::MissingEvent),
    (b"# no row\n", 0, RowWhy::MissingEvent),
];

#[test]
fn events_are_refused_by_their_first_fault(rt: HostRuntime) -> Result<(), Fail> {
    refuses(&rt, FileId::EventsP, &REFUSED_EVENTS)
}

#[test]
fn activities_are_refused_by_their_first_fault(rt: HostRuntime) -> Result<(), Fail> {
    refuses(&rt, FileId::ActivitiesP, &REFUSED_ACTIVITIES)
}

#[test]
fn times_are_refused_by_their_first_fault(rt: HostRuntime) -> Result<(), Fail> {
    refuses(&rt, FileId::TimesP, &REFUSED_TIMES)
}
