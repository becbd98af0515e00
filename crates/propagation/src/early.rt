// Events that are early.
ghost use Rattle.std.specs.Prelude.{◌≡◌, ◌≤◌, length, map, filter, nat_lt, slice_get, All, IfOk};
ghost use Rattle.std.specs.List.{range_with_len};
ghost use Rattle.propagation.specs.LeastTimes.{asked, time_at};
ghost use Rattle.propagation.specs.Marks.{marked_by};
ghost use Rattle.propagation.specs.Problems.{Joins};
ghost use Rattle.propagation.specs.EarlyEvents.{is_early_by};
ghost use Rattle.propagation.specs.declared.times.TheConstants.{LATEST};

use crate::marks::{first_marked, mark};
use crate::reasons::asked;
use crate::step::{Activity, Step};
use plan_num::NoMemory;
use std::alloc::Global;

/// The first event that is before its earliest time, or before what a step into it asks.
pub fn first_early(
    alloc: Global,
    earliest: &[u64],
    activities: &[Activity],
    turns: &[Step],
    times: &[u64],
) -> Result<Option<usize>, NoMemory>
    requires each { length times.now ≡ length earliest.now }
    requires activities { All (λ activity. Joins (length times.now) activity.step) activities.now }
    requires turns { All (Joins (length times.now)) turns.now }
    requires small { All (λ time. time ≤ LATEST) times.now }
    ensures { IfOk result (λ event. event ≡ slice_get (filter
        (is_early_by earliest.now activities.now turns.now times.now)
        (range_with_len 0 (length times.now))) 0) }
{
    let mut marks = early_alone(alloc, earliest, times)?;
    mark_activities(&mut marks, activities, times);
    mark_turns(&mut marks, turns, times);
    Ok(first_marked(&marks))
}

// Whether each event is before its earliest time.
fn early_alone(alloc: Global, earliest: &[u64], times: &[u64]) -> Result<Vec<bool>, NoMemory>
    requires { length times.now ≡ length earliest.now }
    ensures { IfOk result (λ marks. marks.items ≡ map
        (λ event. nat_lt (time_at times.now event) (time_at earliest.now event))
        (range_with_len 0 (length times.now))) }
{
    let mut marks = Vec::with_capacity(alloc, times.len())?;
    for event in 0..times.len() {
        marks.push(times[event] < earliest[event])?;
    }
    Ok(marks)
}

// Marks the heads of activities that are before what these ask.
fn mark_activities(marks: &mut Vec<bool>, activities: &[Activity], times: &[u64])
    requires each { length marks.old.items ≡ length times.now }
    requires ends { All (λ activity. Joins (length times.now) activity.step) activities.now }
    requires small { All (λ time. time ≤ LATEST) times.now }
    ensures { marks.new.items ≡ marked_by (λ activity. activity.step.to) (λ activity. nat_lt
        (time_at times.now activity.step.to) (asked times.now activity.step)) marks.old.items activities.now }
{
    for activity in activities {
        let is = is_ahead(times, &activity.step);
        mark(marks, activity.step.to, is);
    }
}

// Marks the heads of turns that are before what these ask.
fn mark_turns(marks: &mut Vec<bool>, turns: &[Step], times: &[u64])
    requires each { length marks.old.items ≡ length times.now }
    requires ends { All (Joins (length times.now)) turns.now }
    requires small { All (λ time. time ≤ LATEST) times.now }
    ensures { marks.new.items ≡ marked_by (λ turn. turn.to) (λ turn. nat_lt
        (time_at times.now turn.to) (asked times.now turn)) marks.old.items turns.now }
{
    for turn in turns {
        let is = is_ahead(times, turn);
        mark(marks, turn.to, is);
    }
}

// Whether a step asks for a later time than its head has.
fn is_ahead(times: &[u64], step: &Step) -> bool
    requires ends { Joins (length times.now) step.now }
    requires small { All (λ time. time ≤ LATEST) times.now }
    ensures { result ≡ nat_lt (time_at times.now step.now.to) (asked times.now step.now) }
{
    times[step.to as usize] < asked(times, step)
}
