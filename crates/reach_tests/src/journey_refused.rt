// Texts of a day that are refused, and what is read of those that are not.
use crate::journey_days::{ACTIVITIES, Day, EVENTS, LATE, ON_TIME, net_of};
use giv_files::{FileId, Refusal, RowWhy, StageFault};
use journeys::{JourneyEvent, JourneyNet};
use std::alloc::Global;
use std::test::Fail;

const BACKWARD: &str = "1; 1; drive; 2; 1; 8; 10\n";

// A day, and the file, the row and the reason by which it is refused.
const ROWS: [(Day, FileId, u64, RowWhy); 4] = [
    (
        (
            "1; 1; departure; 0; 1\n3; 2; arrival; 10; 2\n",
            BACKWARD,
            None,
        ),
        FileId::EventsX,
        2,
        RowWhy::OrderGap,
    ),
    (
        (EVENTS, BACKWARD, None),
        FileId::ActivitiesX,
        1,
        RowWhy::Backward,
    ),
    (
        (EVENTS, ACTIVITIES, Some("1; 5\n2; 13\n")),
        FileId::Disposed,
        0,
        RowWhy::MissingEvent,
    ),
    (
        (EVENTS, BACKWARD, Some("")),
        FileId::ActivitiesX,
        1,
        RowWhy::Backward,
    ),
];

// Why a day is refused.
fn refused(alloc: Global, day: Day) -> Option<StageFault> {
    net_of(alloc, day).err()
}

#[test]
fn first_faults(rt: HostRuntime) -> Result<(), Fail> {
    for (day, file, row, why) in ROWS {
        let fault = StageFault::Refused(Refusal::BadRow { file, row, why });
        assert_eq!(rt; refused(rt.alloc(), day), Some(fault));
    }
    Ok(())
}

// The event at an index.
fn event_at(net: &JourneyNet, index: usize) -> Option<JourneyEvent> {
    (index < net.event_count()).then(|| net.event(index))
}

#[test]
fn events_at_their_times(rt: HostRuntime) -> Result<(), Fail> {
    let planned = net_of(rt.alloc(), ON_TIME)?;
    let late = net_of(rt.alloc(), LATE)?;
    let event = JourneyEvent {
        id: 2,
        stop: 2,
        time: 10,
    };
    assert_eq!(rt; event_at(&planned, 1), Some(event));
    assert_eq!(rt;
        event_at(&late, 1),
        Some(JourneyEvent { time: 13, ..event })
    );
    assert_eq!(rt; event_at(&late, 6), None);
    Ok(())
}
