// Reasons that are wrong.
ghost use Rattle.std.specs.Prelude.{◌≡◌, ◌<◌, ◌≤◌, ◌&&◌, length, map, filter, not, nat_eq, slice_get, All, IfOk};
ghost use Rattle.std.specs.List.{range_with_len};
ghost use Rattle.propagation.specs.EarlyEvents.{is_just, is_right_by};
ghost use Rattle.propagation.specs.LeastTimes.{time_at};
ghost use Rattle.propagation.specs.Marks.{is_source, is_turn, marked_by, names};
ghost use Rattle.propagation.specs.Problems.{Joins};
ghost use Rattle.propagation.specs.Reasons.{reason_for};
ghost use Rattle.propagation.specs.declared.times.TheConstants.{LATEST};

use crate::marks::{first_unmarked, mark};
use crate::reason::Reason;
use crate::reasons::is_tight;
use crate::step::{Activity, Step};
use plan_num::NoMemory;
use std::alloc::Global;

/// The first event whose reason is not right.
pub fn first_wrong(
    alloc: Global,
    earliest: &[u64],
    activities: &[Activity],
    turns: &[Step],
    times: &[u64],
    reasons: &[Reason],
) -> Result<Option<usize>, NoMemory>
    requires each { length times.now ≡ length earliest.now }
    requires reasons { length reasons.now ≡ length times.now }
    requires activities { All (λ activity. Joins (length times.now) activity.step) activities.now }
    requires turns { All (Joins (length times.now)) turns.now }
    requires small { All (λ time. time ≤ LATEST) times.now }
    ensures { IfOk result (λ event. event ≡ slice_get (filter (λ event. not
        (is_right_by earliest.now activities.now turns.now times.now reasons.now event))
        (range_with_len 0 (length times.now))) 0) }
{
    let mut marks = right_alone(alloc, earliest, times, reasons)?;
    mark_activities(&mut marks, activities, times, reasons);
    mark_turns(&mut marks, turns, times, reasons);
    Ok(first_unmarked(&marks))
}

// Whether each event has its earliest time, and that as its reason.
fn right_alone(
    alloc: Global,
    earliest: &[u64],
    times: &[u64],
    reasons: &[Reason],
) -> Result<Vec<bool>, NoMemory>
    requires each { length times.now ≡ length earliest.now }
    requires reasons { length reasons.now ≡ length times.now }
    ensures { IfOk result (λ marks. marks.items ≡ map
        (λ event. is_source (reason_for reasons.now event)
        && nat_eq (time_at times.now event) (time_at earliest.now event))
        (range_with_len 0 (length times.now))) }
{
    let mut marks = Vec::with_capacity(alloc, times.len())?;
    for event in 0..times.len() {
        marks.push(is_own(earliest, times, reasons, event))?;
    }
    Ok(marks)
}

// Whether an event has its earliest time, and that as its reason.
fn is_own(earliest: &[u64], times: &[u64], reasons: &[Reason], event: usize) -> bool
    requires there { event < length times.now }
    requires each { length times.now ≡ length earliest.now }
    requires reasons { length reasons.now ≡ length times.now }
    ensures { result ≡ (is_source (reason_for reasons.now event)
        && nat_eq (time_at times.now event) (time_at earliest.now event)) }
{
    is_source(reasons, event) && times[event] == earliest[event]
}

// Marks the heads of tight activities that are named by the reasons of these.
fn mark_activities(
    marks: &mut Vec<bool>,
    activities: &[Activity],
    times: &[u64],
    reasons: &[Reason],
)
    requires each { length marks.old.items ≡ length times.now }
    requires ends { All (λ activity. Joins (length times.now) activity.step) activities.now }
    requires small { All (λ time. time ≤ LATEST) times.now }
    requires reasons { length reasons.now ≡ length times.now }
    ensures { marks.new.items ≡ marked_by (λ activity. activity.step.to) (λ activity. names
        (reason_for reasons.now activity.step.to) activity.id && is_just times.now activity.step)
        marks.old.items activities.now }
{
    for activity in activities {
        let to = activity.step.to;
        let is = names(reasons, to as usize, activity.id) && is_tight(times, &activity.step);
        mark(marks, to, is);
    }
}

// Marks the heads of tight turns whose reason is a turn.
fn mark_turns(marks: &mut Vec<bool>, turns: &[Step], times: &[u64], reasons: &[Reason])
    requires each { length marks.old.items ≡ length times.now }
    requires ends { All (Joins (length times.now)) turns.now }
    requires small { All (λ time. time ≤ LATEST) times.now }
    requires reasons { length reasons.now ≡ length times.now }
    ensures { marks.new.items ≡ marked_by (λ turn. turn.to) (λ turn. is_turn
        (reason_for reasons.now turn.to) && is_just times.now turn) marks.old.items turns.now }
{
    for turn in turns {
        let is = is_turn(reasons, turn.to as usize) && is_tight(times, turn);
        mark(marks, turn.to, is);
    }
}

// Whether the reason of an event is its earliest time.
fn is_source(reasons: &[Reason], event: usize) -> bool
    requires { event < length reasons.now }
    ensures { result ≡ is_source (reason_for reasons.now event) }
{
    matches!(reasons[event], Reason::Source)
}

// Whether the reason of an event names an activity.
fn names(reasons: &[Reason], event: usize, id: u32) -> bool
    requires { event < length reasons.now }
    ensures { result ≡ names (reason_for reasons.now event) id }
{
    match reasons[event] {
        Reason::Activity { id: named } => named == id,
        _ => false,
    }
}

// Whether the reason of an event is a turn.
fn is_turn(reasons: &[Reason], event: usize) -> bool
    requires { event < length reasons.now }
    ensures { result ≡ is_turn (reason_for reasons.now event) }
{
    matches!(reasons[event], Reason::Turn)
}
