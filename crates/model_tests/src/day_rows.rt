// Rows of the files of a day, and texts of them that are refused.
use crate::refusing::{DAY, Refused, TWO_OF_DAY, refuses};
use event_tables::{
    ActivityKind, DelayRow, DisposedTime, EventKind, ExpandedActivity, ExpandedEvent,
    activity_delays, disposed_times, event_delays, expanded_activities, expanded_events,
};
use giv_files::{FileId, RowWhy};
use std::test::Fail;

const FIRST_EVENT: ExpandedEvent = ExpandedEvent {
    id: 1,
    periodic: 1,
    kind: EventKind::Departure,
    time: 5,
    stop: 1,
};

const LAST_ACTIVITY: ExpandedActivity = ExpandedActivity {
    id: 3,
    periodic: 9,
    kind: ActivityKind::Change,
    from: 7,
    to: 5,
    lower: 0,
    upper: 62,
};

#[test]
fn rows_are_events(rt: HostRuntime) -> Result<(), Fail> {
    let events = expanded_events(rt.alloc(), DAY)?;
    assert_eq!(rt; events.len(), 7);
    assert_eq!(rt; events.get(0), Some(&FIRST_EVENT));
    Ok(())
}

// Whether the events at two places from 0 stand in this order, and none before itself.
fn are_in_turn(events: &[ExpandedEvent], before: usize, after: usize) -> bool {
    match (events.get(before), events.get(after)) {
        (Some(event), Some(next)) => {
            event.stands_before(next) && !next.stands_before(event) && !event.stands_before(event)
        }
        _ => false,
    }
}

// At 14 the arrivals 4 and 7 come first, and then the departures 5 and 6.
#[test]
fn events_have_a_forward_order(rt: HostRuntime) -> Result<(), Fail> {
    let events = expanded_events(rt.alloc(), DAY)?;
    for (before, after) in [(0, 1), (1, 2), (2, 3), (3, 6), (6, 4), (4, 5)] {
        assert!(rt;
            are_in_turn(&events, before, after),
            "{before} before {after}"
        );
    }
    Ok(())
}

#[test]
fn rows_are_activities(rt: HostRuntime) -> Result<(), Fail> {
    let events = expanded_events(rt.alloc(), DAY)?;
    let text = b"1; 1; drive; 1; 2; 4; 5\n2; 1; wait; 2; 3; 0; 3\n3; 9; change; 7; 5; 0; 62\n";
    let activities = expanded_activities(rt.alloc(), &events, text)?;
    assert_eq!(rt; activities.len(), 3);
    assert_eq!(rt; activities.get(2), Some(&LAST_ACTIVITY));
    Ok(())
}

#[test]
fn rows_are_delays(rt: HostRuntime) -> Result<(), Fail> {
    let events = expanded_events(rt.alloc(), DAY)?;
    let rows = event_delays(rt.alloc(), &events, b"7; 3\n2; 1000000\n")?;
    let last = DelayRow {
        id: 2,
        delay: 1_000_000,
    };
    assert_eq!(rt; rows.get(1), Some(&last));
    Ok(())
}

#[test]
fn no_delay_need_be_given(rt: HostRuntime) -> Result<(), Fail> {
    let events = expanded_events(rt.alloc(), DAY)?;
    let activities = expanded_activities(rt.alloc(), &events, b"1; 1; drive; 1; 2; 4; 5\n")?;
    assert!(rt; activity_delays(rt.alloc(), &activities, b"")?.is_empty());
    Ok(())
}

#[test]
fn rows_are_disposed_times(rt: HostRuntime) -> Result<(), Fail> {
    let events = expanded_events(rt.alloc(), TWO_OF_DAY)?;
    let times = disposed_times(rt.alloc(), &events, b"1; 5\n2; 1000000000000000000\n")?;
    let last = DisposedTime {
        event: 2,
        time: 1_000_000_000_000_000_000,
    };
    assert_eq!(rt; times.get(1), Some(&last));
    Ok(())
}

const REFUSED_EVENTS: [Refused; 3] = [
    (b"2; 1; departure; 5; 1\n", 1, RowWhy::OrderGap),
    (
        b"1; 1; departure; 5; 1\n1; 1; departure; 5; 1\n",
        2,
        RowWhy::OrderGap,
    ),
    (
        b"2; 1; departure; 5; 0\n",
        1,
        RowWhy::OutOfRange { column: 5 },
    ),
];

const REFUSED_ACTIVITIES: [Refused; 13] = [
    (b"2; 1; drive; 1; 2; 4; 5\n", 1, RowWhy::OrderGap),
    (b"1; 1; drive; 1; 8; 4; 5\n", 1, RowWhy::UnknownEvent),
    (b"1; 1; drive; 8; 2; 4; 5\n", 1, RowWhy::UnknownEvent),
    (b"1; 1; drive; 1; 2; 6; 5\n", 1, RowWhy::BoundsCrossed),
    (b"1; 1; sync; 1; 3; 0; 5\n", 1, RowWhy::StraySync),
    // The head is earlier.
    (b"1; 1; drive; 2; 1; 0; 5\n", 1, RowWhy::Backward),
    // At one time a departure does not stand before an arrival, nor an event before one of a
    // lower id.
    (b"1; 1; wait; 3; 2; 0; 5\n", 1, RowWhy::Backward),
    (b"1; 1; wait; 6; 5; 0; 5\n", 1, RowWhy::Backward),
    (b"1; 1; wait; 7; 4; 0; 5\n", 1, RowWhy::Backward),
    (b"1; 1; wait; 3; 3; 0; 5\n", 1, RowWhy::Backward),
    // Of the rules that a row breaks the first counts.
    (b"1; 1; sync; 2; 1; 6; 5\n", 1, RowWhy::BoundsCrossed),
    (b"1; 1; sync; 2; 1; 5; 5\n", 1, RowWhy::StraySync),
    (b"1; 1; sync; 9; 1; 6; 5\n", 1, RowWhy::UnknownEvent),
];

const REFUSED_EVENT_DELAYS: [Refused; 4] = [
    (b"8; 1\n", 1, RowWhy::UnknownEvent),
    (b"1; 1\n7; 1\n1; 2\n", 3, RowWhy::RepeatedId),
    (b"1; 1\n8; 1\n1; 2\n", 2, RowWhy::UnknownEvent),
    (b"1; 1000001\n", 1, RowWhy::OutOfRange { column: 2 }),
];

const REFUSED_ACTIVITY_DELAYS: [Refused; 2] = [
    (b"2; 1\n", 1, RowWhy::UnknownActivity),
    (b"1; 1\n1; 1\n", 2, RowWhy::RepeatedId),
];

const REFUSED_TIMES: [Refused; 4] = [
    (b"2; 5\n", 1, RowWhy::OrderGap),
    (b"1; 5\n2; 9\n3; 9\n", 3, RowWhy::UnknownEvent),
    (b"1; 5\n", 0, RowWhy::MissingEvent),
    (
        b"1; 5\n2; 1000000000000000001\n",
        2,
        RowWhy::NotNumber { column: 2 },
    ),
];

#[test]
fn events_are_refused_by_their_first_fault(rt: HostRuntime) -> Result<(), Fail> {
    refuses(&rt, FileId::EventsX, &REFUSED_EVENTS)
}

#[test]
fn activities_are_refused_by_their_first_fault(rt: HostRuntime) -> Result<(), Fail> {
    refuses(&rt, FileId::ActivitiesX, &REFUSED_ACTIVITIES)
}

#[test]
fn delays_are_given_once(rt: HostRuntime) -> Result<(), Fail> {
    refuses(&rt, FileId::EventDelays, &REFUSED_EVENT_DELAYS)?;
    refuses(&rt, FileId::ActivityDelays, &REFUSED_ACTIVITY_DELAYS)
}

#[test]
fn each_event_has_a_disposed_time(rt: HostRuntime) -> Result<(), Fail> {
    refuses(&rt, FileId::Disposed, &REFUSED_TIMES)
}
