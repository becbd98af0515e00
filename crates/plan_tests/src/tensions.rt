// Problems of timetables, what refuses their texts, and activities that break their bounds.
ghost use Rattle.std.specs.Prelude.{◌≡◌};

use crate::refusing::bad_row;
use giv_files::{FileId, RowWhy};
use pesp_model::{Pesp, PespActivity, tension};
use std::test::Fail;

/// Three events of a line.
pub(crate) const THREE: &[u8] =
    b"1; departure; 1; 1; >; 1\n2; arrival; 2; 1; >; 1\n3; departure; 2; 1; >; 1\n";

/// Two lines in both directions, the first over three stops and the second over two of them.
pub(crate) const TWELVE: &[u8] =
    b"# events\n1; departure; 1; 1; >; 1\n2; arrival; 2; 1; >; 1\n3; departure; 2; 1; >; 1\n\
    4; arrival; 3; 1; >; 1\n5; departure; 3; 1; <; 1\n6; arrival; 2; 1; <; 1\n\
    7; departure; 2; 1; <; 1\n8; arrival; 1; 1; <; 1\n9; departure; 1; 2; >; 1\n\
    10; arrival; 2; 2; >; 1\n11; departure; 2; 2; <; 1\n12; arrival; 1; 2; <; 1\n";

/// Their drives and waits, with the changes between them.
pub(crate) const CHANGES: &[u8] =
    b"# activities\n1; drive; 1; 2; 4; 5\n2; wait; 2; 3; 1; 3\n3; drive; 3; 4; 6; 6\n\
    4; drive; 5; 6; 6; 6\n5; wait; 6; 7; 1; 3\n6; drive; 7; 8; 4; 5\n7; drive; 9; 10; 4; 5\n\
    8; drive; 11; 12; 4; 5\n9; change; 2; 11; 2; 62\n10; change; 6; 11; 2; 62\n\
    11; change; 8; 9; 2; 62\n12; change; 10; 3; 2; 62\n13; change; 10; 7; 2; 62\n\
    14; change; 12; 1; 2; 62\n";

const TIMES: [u32; 12] = [0, 4, 5, 11, 0, 6, 7, 11, 0, 4, 0, 4];

/// A drive, a wait and a way back to the first event.
pub(crate) const ROUND: &[u8] = b"1; drive; 1; 2; 3; 5\n2; wait; 2; 3; 2; 2\n3; sync; 3; 1; 4; 4\n";

#[test]
fn texts_are_a_problem(rt: HostRuntime) -> Result<(), Fail> {
    let pesp = Pesp::from_texts(rt.alloc(), 20, TWELVE, CHANGES)?;
    assert_eq!(rt; pesp.event_count(), 12);
    assert_eq!(rt; pesp.activity_count(), 14);
    let change = PespActivity {
        from: 9,
        to: 2,
        lower: 2,
        upper: 62,
    };
    assert!(rt; 11 < pesp.activity_count());
    assert_eq!(rt; pesp.activity(11), change);
    Ok(())
}

#[test]
fn a_timetable_keeps_every_activity(rt: HostRuntime) -> Result<(), Fail> {
    let pesp = Pesp::from_texts(rt.alloc(), 20, TWELVE, CHANGES)?;
    assert_eq!(rt; violated(&pesp, 20, &TIMES), Some(None));
    for (index, minutes) in [(8, 16), (9, 14), (10, 9), (11, 21), (12, 3), (13, 16)] {
        assert_eq!(rt; tension_at(&pesp, 20, &TIMES, index), Some(minutes));
    }
    Ok(())
}

#[test]
fn tensions_go_past_the_end_of_the_period(rt: HostRuntime) -> Result<(), Fail> {
    assert_eq!(rt; tension(2, 4, 0, 20), 16);
    assert_eq!(rt; tension(0, 5, 5, 20), 0);
    assert_eq!(rt; tension(100_000, 19, 0, 20), 100_001);
    assert_eq!(rt; tension(7, 0, 0, 1), 7);
    assert_eq!(rt; tension(0, 4_294_967_294, 0, 4_294_967_295), 1);
    Ok(())
}

#[test]
fn an_activity_may_go_across_the_end_of_the_period(rt: HostRuntime) -> Result<(), Fail> {
    let events = b"1; departure; 1; 1; >; 1\n2; arrival; 2; 1; >; 1\n";
    let pesp = Pesp::from_texts(rt.alloc(), 10, events, b"1; drive; 1; 2; 3; 5\n")?;
    assert_eq!(rt; violated(&pesp, 10, &[8, 1]), Some(None));
    assert_eq!(rt; tension_at(&pesp, 10, &[8, 1], 0), Some(3));
    // A minute less, and one more than the upper bound.
    assert_eq!(rt; violated(&pesp, 10, &[8, 0]), Some(Some(0)));
    assert_eq!(rt; violated(&pesp, 10, &[8, 4]), Some(Some(0)));
    Ok(())
}

// The times of three events, and the first activity that they break.
const BROKEN: [(&[u32], Option<Option<usize>>); 5] = [
    (&[0, 4, 6], Some(None)),
    (&[0, 6, 8], Some(Some(0))),
    (&[0, 3, 6], Some(Some(1))),
    (&[0, 5, 7], Some(Some(2))),
    (&[0, 5], None),
];

#[test]
fn the_first_broken_activity_is_found(rt: HostRuntime) -> Result<(), Fail> {
    let round = Pesp::from_texts(rt.alloc(), 10, THREE, ROUND)?;
    for (times, found) in BROKEN {
        assert_eq!(rt; violated(&round, 10, times), found);
    }
    Ok(())
}

#[test]
fn an_activity_may_lead_back_to_its_event(rt: HostRuntime) -> Result<(), Fail> {
    let event = b"1; departure; 1; 1; >; 1\n";
    let kept = Pesp::from_texts(rt.alloc(), 4, event, b"1; sync; 1; 1; 5; 8\n")?;
    assert_eq!(rt; violated(&kept, 4, &[3]), Some(None));
    let broken = Pesp::from_texts(rt.alloc(), 4, event, b"1; sync; 1; 1; 5; 7\n")?;
    assert_eq!(rt; violated(&broken, 4, &[3]), Some(Some(0)));
    Ok(())
}

const GAP: &[u8] = b"1; departure; 1; 1; >; 1\n3; arrival; 2; 1; >; 1\n";

const CROSSED: &[u8] = b"1; drive; 1; 2; 5; 3\n";

// Texts of events and of activities, and the file, the row and the reason of the refusal.
const REFUSED: [(&[u8], &[u8], FileId, u64, RowWhy); 3] = [
    (GAP, CROSSED, FileId::EventsP, 2, RowWhy::OrderGap),
    (
        THREE,
        CROSSED,
        FileId::ActivitiesP,
        1,
        RowWhy::BoundsCrossed,
    ),
    (
        THREE,
        b"1; drive; 1; 4; 5; 3\n",
        FileId::ActivitiesP,
        1,
        RowWhy::UnknownEvent,
    ),
];

#[test]
fn texts_are_refused_by_their_first_fault(rt: HostRuntime) -> Result<(), Fail> {
    for (events, activities, file, row, why) in REFUSED {
        let told = Pesp::from_texts(rt.alloc(), 20, events, activities).err();
        assert_eq!(rt; told, Some(bad_row(file, row, why)));
    }
    Ok(())
}

// The first activity of a problem that breaks its bounds, if each event has a time in the period.
fn violated(pesp: &Pesp, period: u32, times: &[u32]) -> Option<Option<usize>>
    requires { pesp.now.period ≡ period }
{
    let fits = times.len() == pesp.event_count() && times.iter().all(|time| *time < period);
    if fits {
        Some(pesp.first_violated(times))
    } else {
        None
    }
}

// The tension of an activity, if it is there and its events have times in the period.
fn tension_at(pesp: &Pesp, period: u32, times: &[u32], index: usize) -> Option<i64> {
    if index >= pesp.activity_count() {
        return None;
    }
    let activity = pesp.activity(index);
    let from = *times.get(activity.from)?;
    let to = *times.get(activity.to)?;
    if from < period && to < period {
        Some(tension(activity.lower, from, to, period))
    } else {
        None
    }
}
