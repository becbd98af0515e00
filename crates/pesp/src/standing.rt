// How a search stands where its sets are reduced.
ghost use Rattle.std.specs.Prelude.{◌≡◌, ◌<◌, position, slice_index_or, IfOk};
ghost use Rattle.pesp.specs.Listings.{first_times, has_several};
ghost use Rattle.pesp.specs.Marks.{IsSettled, sets_of, times_from};

use crate::marks::TimeMarks;
use plan_num::NoMemory;
use std::alloc::Global;

/// The first event to which several times are left. No event before one has several.
pub(crate) fn first_open(sets: &TimeMarks, from: usize) -> Option<usize>
    requires { IsSettled sets.now from }
    ensures { result ≡ position has_several (sets_of sets.now) }
{
    for event in from..sets.events() {
        if sets.count(event) > 1 {
            return Some(event);
        }
    }
    None
}

/// The first time that is left to each event.
pub(crate) fn first_times(alloc: Global, sets: &TimeMarks) -> Result<Vec<u32>, NoMemory>
    ensures { IfOk result (λ times. times.items ≡ first_times (sets_of sets.now)) }
{
    let mut times = Vec::new(alloc);
    for event in 0..sets.events() {
        times.push(first_time(sets, event))?;
    }
    Ok(times)
}

// The first time that is left to an event, or time 0 where there is none.
fn first_time(sets: &TimeMarks, event: usize) -> u32
    requires { event < sets.now.rows }
    ensures { result ≡ slice_index_or (times_from sets.now event 0) 0 0 }
{
    let _ = sets.period();
    match sets.next_left(event, 0) {
        Some(time) => time as u32,
        None => 0,
    }
}
