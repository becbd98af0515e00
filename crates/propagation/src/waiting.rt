// Which changes are kept.
ghost use Rattle.std.specs.Prelude.{◌≡◌, ◌≤◌, ◌+◌, ◌++◌, false, get_or, length, map, All, IfOk, OnOk};
ghost use Rattle.std.specs.List.{items_where_true};
ghost use Rattle.propagation.specs.LeastTimes.{time_at};
ghost use Rattle.propagation.specs.Problems.{Joins, planned_at};
ghost use Rattle.propagation.specs.Waiting.{chosen_changes, kept_changes, waits};
ghost use Rattle.propagation.specs.declared.times.TheConstants.{LATEST};

use crate::day_event::DayEvent;
use crate::propagation::Propagation;
use crate::step::Activity;
use plan_num::NoMemory;
use std::alloc::Global;

/// Whether each change is kept, where departures wait so many minutes, or for all changes (-1), or
/// for none (-2). The least times without any change decide.
pub fn waiting_changes(
    alloc: Global,
    problem: &Propagation,
    wait: i64,
) -> Result<Vec<bool>, NoMemory>
    ensures { IfOk result
        (λ kept. chosen_changes problem.now kept.items ≡ kept_changes problem.now wait) }
{
    let alone = problem.least_times(alloc, &[])?;
    kept_by(alloc, problem.events(), problem.changes(), &alone, wait)
}

// Whether each change is kept, by the times where none is.
fn kept_by(
    alloc: Global,
    events: &[DayEvent],
    changes: &[Activity],
    alone: &[u64],
    wait: i64,
) -> Result<Vec<bool>, NoMemory>
    requires ends { All (λ change. Joins (length events.now) change.step) changes.now }
    requires each { length alone.now ≡ length events.now }
    requires small { All (λ time. time ≤ LATEST) alone.now }
    ensures { IfOk result (λ kept. kept.items ≡ map
        (λ change. waits wait (time_at alone.now change.step.from + change.step.lower)
        (planned_at events.now change.step.to)) changes.now) }
{
    let mut kept = Vec::with_capacity(alloc, changes.len())?;
    for change in changes {
        kept.push(is_kept(events, change, alone, wait))?;
    }
    Ok(kept)
}

// Whether a change is kept, by the times where none is.
fn is_kept(events: &[DayEvent], change: &Activity, alone: &[u64], wait: i64) -> bool
    requires ends { Joins (length events.now) change.now.step }
    requires each { length alone.now ≡ length events.now }
    requires small { All (λ time. time ≤ LATEST) alone.now }
    ensures { result ≡ waits wait (time_at alone.now change.now.step.from + change.now.step.lower)
        (planned_at events.now change.now.step.to) }
{
    let ready = alone[change.step.from as usize] + u64::from(change.step.lower);
    waits(wait, ready, events[change.step.to as usize].time)
}

// Whether a departure waits for passengers who are ready at a time.
fn waits(wait: i64, ready: u64, planned: u32) -> bool
    ensures { result ≡ waits wait ready planned }
{
    if wait < 0 {
        return wait == -1;
    }
    ready <= u64::from(planned) + wait as u64
}

/// The drives and waits of a problem, and behind them the changes that are chosen.
pub fn kept_activities(
    alloc: Global,
    problem: &Propagation,
    kept: &[bool],
) -> Result<Vec<Activity>, NoMemory>
    ensures activities { IfOk result (λ all. all.items
        ≡ problem.now.rides ++ chosen_changes problem.now kept.now) }
    ensures ends { IfOk result
        (λ all. All (λ at. Joins (length problem.now.events) at.step) all.items) }
    ensures ids { IfOk result (λ all. All (λ at. at.id ≤ 500000) all.items) }
{
    counted_activities(alloc, problem.rides(), problem.changes(), kept)
}

// The drives and waits, and behind them the changes that are chosen.
fn counted_activities(
    alloc: Global,
    rides: &[Activity],
    changes: &[Activity],
    kept: &[bool],
) -> Result<Vec<Activity>, NoMemory>
    ensures { IfOk result
        (λ all. all.items ≡ rides.now ++ items_where_true kept.now changes.now) }
{
    let mut all = Vec::from_slice(alloc, rides)?;
    for (index, change) in changes.iter().enumerate() {
        if is_chosen(kept, index) {
            all.push(*change)?;
        }
    }
    Ok(all)
}

/// Whether the change at an index is chosen.
pub fn is_chosen(kept: &[bool], change: usize) -> bool
    ensures { result ≡ get_or kept.now change false }
{
    kept.get(change).copied().unwrap_or(false)
}
