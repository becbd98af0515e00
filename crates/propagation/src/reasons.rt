// Why events are not earlier.
ghost use Rattle.std.specs.Prelude.{◌≡◌, ◌≤◌, ◌<◌, ◌&&◌, ◌++◌, false, length, map, nat_eq, get_or, slice_set};
ghost use Rattle.std.specs.Prelude.{if◌then◌else◌, All, IfOk, Some, None};
ghost use Rattle.std.specs.List.{items_where_true, range_with_len, reduce};
ghost use Rattle.propagation.specs.declared.reason.Reason.TheVariants as reasons;
ghost use Rattle.propagation.specs.Reasons.{named_activity, by_activity, canonical_reasons, lesser, tight_among};
ghost use Rattle.propagation.specs.LeastTimes.{asked, time_at};
ghost use Rattle.propagation.specs.Problems.{Joins};
ghost use Rattle.propagation.specs.TightIds.{reason_by, with_id};
ghost use Rattle.propagation.specs.Waiting.{chosen_changes};
ghost use Rattle.propagation.specs.declared.times.TheConstants.{LATEST};

use crate::propagation::Propagation;
use crate::reason::Reason;
use crate::step::{Activity, Step};
use crate::waiting::is_chosen;
use plan_num::NoMemory;
use std::alloc::Global;

/// The reasons that are written of times of a problem where some changes are chosen.
pub fn canonical_reasons(
    alloc: Global,
    problem: &Propagation,
    kept: &[bool],
    times: &[u64],
) -> Result<Vec<Reason>, NoMemory>
    requires each { length times.now ≡ length problem.now.events }
    requires small { All (λ time. time ≤ LATEST) times.now }
    ensures reasons { IfOk result (λ reasons. reasons.items
        ≡ canonical_reasons problem.now (chosen_changes problem.now kept.now) times.now) }
    ensures ids { IfOk result
        (λ reasons. All (λ reason. named_activity reason ≤ 500000) reasons.items) }
    ensures few { IfOk result (λ reasons. length reasons.items ≤ 100000) }
{
    let (rides, changes) = (problem.rides(), problem.changes());
    written_reasons(alloc, problem.earliest(), rides, changes, kept, times)
}

// The reasons that are written of times, by the earliest times, and by drives, waits and chosen
// changes.
fn written_reasons(
    alloc: Global,
    earliest: &[u64],
    rides: &[Activity],
    changes: &[Activity],
    kept: &[bool],
    times: &[u64],
) -> Result<Vec<Reason>, NoMemory>
    requires each { length times.now ≡ length earliest.now }
    requires rides { All (λ ride. Joins (length times.now) ride.step) rides.now }
    requires changes { All (λ change. Joins (length times.now) change.step) changes.now }
    requires small { All (λ time. time ≤ LATEST) times.now }
    ensures { IfOk result (λ reasons. reasons.items ≡ map
        (λ event. reason_by earliest.now times.now event (reduce lesser
        (tight_among times.now event (rides.now ++ items_where_true kept.now changes.now))))
        (range_with_len 0 (length times.now))) }
{
    let ids = least_tight(alloc, rides, changes, kept, times)?;
    reasons_by(alloc, earliest, times, &ids)
}

// The reasons by the least id of a tight activity into each event.
fn reasons_by(
    alloc: Global,
    earliest: &[u64],
    times: &[u64],
    ids: &[Option<u32>],
) -> Result<Vec<Reason>, NoMemory>
    requires each { length times.now ≡ length earliest.now }
    requires ids { length ids.now ≡ length times.now }
    ensures { IfOk result (λ reasons. reasons.items ≡ map
        (λ event. reason_by earliest.now times.now event (get_or ids.now event None))
        (range_with_len 0 (length times.now))) }
{
    let mut reasons = Vec::with_capacity(alloc, times.len())?;
    for event in 0..times.len() {
        reasons.push(reason_by(earliest[event], times[event], ids[event]))?;
    }
    Ok(reasons)
}

// The reason of an event at a time.
fn reason_by(earliest: u64, time: u64, id: Option<u32>) -> Reason
    ensures { result ≡ (if nat_eq time earliest then reasons.Source else by_activity id) }
{
    if time == earliest {
        return Reason::Source;
    }
    match id {
        Some(id) => Reason::Activity { id },
        None => Reason::Turn,
    }
}

// The least id of a tight drive, wait or chosen change into each event.
fn least_tight(
    alloc: Global,
    rides: &[Activity],
    changes: &[Activity],
    kept: &[bool],
    times: &[u64],
) -> Result<Vec<Option<u32>>, NoMemory>
    requires rides { All (λ ride. Joins (length times.now) ride.step) rides.now }
    requires changes { All (λ change. Joins (length times.now) change.step) changes.now }
    requires small { All (λ time. time ≤ LATEST) times.now }
    ensures { IfOk result (λ ids. ids.items ≡ map (λ event. reduce lesser
        (tight_among times.now event (rides.now ++ items_where_true kept.now changes.now)))
        (range_with_len 0 (length times.now))) }
{
    let mut ids = no_ids(alloc, times.len())?;
    for ride in rides {
        if is_tight(times, &ride.step) {
            note(&mut ids, ride);
        }
    }
    for (index, change) in changes.iter().enumerate() {
        if is_chosen_tight(kept, index, times, &change.step) {
            note(&mut ids, change);
        }
    }
    Ok(ids)
}

// Whether the change at an index is chosen, and its step is tight.
fn is_chosen_tight(kept: &[bool], index: usize, times: &[u64], step: &Step) -> bool
    requires ends { Joins (length times.now) step.now }
    requires small { All (λ time. time ≤ LATEST) times.now }
    ensures { result ≡ (get_or kept.now index false
        && nat_eq (asked times.now step.now) (time_at times.now step.now.to)) }
{
    is_chosen(kept, index) && is_tight(times, step)
}

// No id for each of so many events.
fn no_ids(alloc: Global, count: usize) -> Result<Vec<Option<u32>>, NoMemory>
    ensures { IfOk result (λ ids. ids.items ≡ map (λ _. None) (range_with_len 0 count)) }
{
    let mut ids = Vec::with_capacity(alloc, count)?;
    for _event in 0..count {
        ids.push(None)?;
    }
    Ok(ids)
}

// A tight activity more.
fn note(ids: &mut Vec<Option<u32>>, activity: &Activity)
    requires { activity.now.step.to < length ids.old.items }
    ensures { ids.new.items ≡ slice_set ids.old.items activity.now.step.to
        (Some (with_id (get_or ids.old.items activity.now.step.to None) activity.now.id)) }
{
    let to = activity.step.to as usize;
    ids[to] = Some(with_id(ids[to], activity.id));
}

// The lesser one of two ids, where there are two.
fn with_id(least: Option<u32>, id: u32) -> u32
    ensures { result ≡ with_id least id }
{
    match least {
        None => id,
        Some(least) => lesser(least, id),
    }
}

// The lesser one of two ids.
fn lesser(id: u32, other: u32) -> u32
    ensures { result ≡ lesser id other }
{
    if other < id { other } else { id }
}

/// Whether the head of a step is just when the step asks it to be.
pub fn is_tight(times: &[u64], step: &Step) -> bool
    requires ends { Joins (length times.now) step.now }
    requires small { All (λ time. time ≤ LATEST) times.now }
    ensures { result ≡ nat_eq (asked times.now step.now) (time_at times.now step.now.to) }
{
    asked(times, step) == times[step.to as usize]
}

/// The time that a step asks of its head.
pub fn asked(times: &[u64], step: &Step) -> u64
    requires ends { Joins (length times.now) step.now }
    requires small { All (λ time. time ≤ LATEST) times.now }
    ensures { result ≡ asked times.now step.now }
{
    times[step.from as usize] + step.minutes()
}
