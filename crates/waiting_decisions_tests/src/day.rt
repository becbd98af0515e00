// A small day: a late trip, and two trips that its passengers change to.
use plan_num::NoMemory;
use propagation::{Activity, DayEvent, Propagation, Step};
use std::alloc::Global;

// A step: from where, to where, and its least minutes.
type Way = (u32, u32, u32);

// The activities of steps, whose ids begin with a number.
fn activities(alloc: Global, first: u32, ways: &[Way]) -> Result<Vec<Activity>, NoMemory> {
    let mut all = Vec::new(alloc);
    let mut id = first;
    for (from, to, lower) in ways {
        all.push(Activity {
            id,
            step: Step {
                from: *from,
                to: *to,
                lower: *lower,
                extra: 0,
            },
        })?;
        id = id.wrapping_add(1);
    }
    Ok(all)
}

// Whether each event arrives, and when it is planned.
const EVENTS: [(bool, u32); 6] = [
    (false, 0),
    (true, 10),
    (false, 13),
    (true, 20),
    (false, 15),
    (true, 30),
];

// The events of three trips: from 0 to 10, from 13 to 20, and from 15 to 30.
fn events(alloc: Global) -> Result<Vec<DayEvent>, NoMemory> {
    let mut all = Vec::new(alloc);
    let mut id = 1;
    for (arrives, time) in EVENTS {
        all.push(DayEvent { id, arrives, time })?;
        id = u32::wrapping_add(id, 1);
    }
    Ok(all)
}

/// The day on which the first trip starts at 5, with a change to each of the others. The last trip
/// can make up for two minutes.
pub(crate) fn late_day(alloc: Global) -> Result<Option<Propagation>, NoMemory> {
    let earliest = Vec::from_slice(alloc, &[5, 10, 13, 20, 15, 30])?;
    let rides = activities(alloc, 1, &[(0, 1, 8), (2, 3, 7), (4, 5, 13)])?;
    let changes = activities(alloc, 4, &[(1, 2, 2), (1, 4, 4)])?;
    let turns = Vec::new(alloc);
    Propagation::checked(alloc, events(alloc)?, earliest, rides, changes, turns)
}
