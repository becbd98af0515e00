// A small day: its least times, how late they are, and what is refused.
use plan_num::NoMemory;
use propagation::{Activity, DayEvent, Propagation, Step};
use std::alloc::Global;
use std::process::Abort;
use std::test::Fail;

// A step: from where, to where, and its least minutes.
type Way = (u32, u32, u32);

// Two rides, and a change from the first to the second.
pub(crate) const CHANGES: [Way; 1] = [(1, 2, 2)];

// The activities of steps, whose ids begin with a number.
fn activities(alloc: Global, first: u32, ways: &[Way]) -> Result<Vec<Activity>, NoMemory> {
    let mut all = Vec::new(alloc);
    let mut id = first;
    for (from, to, lower) in ways {
        all.push(Activity {
            id,
            step: Step {
                from: *from,
                to: *to,
                lower: *lower,
                extra: 0,
            },
        })?;
        id = id.wrapping_add(1);
    }
    Ok(all)
}

// The events of two trips: from 0 to 10, and from 13 to 20.
fn events(alloc: Global) -> Result<Vec<DayEvent>, NoMemory> {
    let mut all = Vec::new(alloc);
    let mut id = 1;
    for (arrives, time) in [(false, 0), (true, 10), (false, 13), (true, 20)] {
        all.push(DayEvent { id, arrives, time })?;
        id = u32::wrapping_add(id, 1);
    }
    Ok(all)
}

/// The day of these changes, where the first trip starts at least so late; none where it is no such.
pub(crate) fn day_of(
    alloc: Global,
    start: u64,
    changes: &[Way],
) -> Result<Option<Propagation>, NoMemory> {
    let earliest = Vec::from_slice(alloc, &[start, 10, 13, 20])?;
    let rides = activities(alloc, 1, &[(0, 1, 8), (2, 3, 7)])?;
    let changes = activities(alloc, 3, changes)?;
    Propagation::checked(
        alloc,
        events(alloc)?,
        earliest,
        rides,
        changes,
        Vec::new(alloc),
    )
}

// The times of four events, whether they break the change, and how late all arrivals are.
type Told = ([i64; 4], bool, i128);

// These, where the change is kept or is not.
fn told(alloc: Global, problem: &Propagation, kept: bool) -> Result<Option<Told>, NoMemory> {
    if problem.change_count() != 1 || problem.event_count() != 4 {
        return Ok(None);
    }
    let times = problem.least(alloc, &[kept])?;
    let all = [times.at(0), times.at(1), times.at(2), times.at(3)];
    Ok(Some((all, problem.broken(&times, 0), problem.delay(&times))))
}

#[test]
fn a_kept_change_makes_the_second_trip_late(rt: HostRuntime) -> Result<(), Fail> {
    let problem = day_of(rt.alloc(), 5, &CHANGES)?.expect(&rt, "a day");
    let waited = told(rt.alloc(), &problem, true)?;
    assert_eq!(rt; waited, Some(([5, 13, 15, 22], false, 5)));
    let gone = told(rt.alloc(), &problem, false)?;
    assert_eq!(rt; gone, Some(([5, 13, 13, 20], true, 3)));
    Ok(())
}

#[test]
fn without_delays_all_is_as_planned(rt: HostRuntime) -> Result<(), Fail> {
    let problem = day_of(rt.alloc(), 0, &CHANGES)?.expect(&rt, "a day");
    let waited = told(rt.alloc(), &problem, true)?;
    assert_eq!(rt; waited, Some(([0, 10, 13, 20], false, 0)));
    Ok(())
}

// Changes that are none: backward, to an event that is not there, and of too many minutes.
const REFUSED: [[Way; 1]; 3] = [[(2, 1, 0)], [(1, 4, 0)], [(1, 2, 1_100_004)]];

#[test]
fn other_changes_are_refused(rt: HostRuntime) -> Result<(), Fail> {
    for changes in REFUSED {
        assert!(rt; day_of(rt.alloc(), 5, &changes)?.is_none());
    }
    Ok(())
}
