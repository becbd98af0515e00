// The ends of changes by their events.
ghost use Rattle.std.specs.Prelude.{◌≡◌, ◌<◌, ◌≤◌, ◌+◌, ◌/◌, ◌⊎◌, [], true, false, length, replicate, All, IfOk};
ghost use Rattle.std.specs.List.Sorted.{IsNonDecreasingBy};
ghost use Rattle.delay_trials.specs.ChangeEnds.{AreFirst, HasEnds, HasNone, IsFirst};

use plan_num::NoMemory;
use propagation::Activity;
use std::alloc::Global;

/// A change, by its index, at its first or its second event.
#[derive(Clone, Copy)]
pub(crate) struct ChangeEnd {
    pub(crate) event: u32,
    pub(crate) change: u32,
}

/// Both ends of each change, by their events.
pub(crate) fn ends_in_order(alloc: Global, changes: &[Activity]) -> Result<Vec<ChangeEnd>, NoMemory>
    requires { length changes.now ≤ 502000 }
    ensures ends { IfOk result (λ ends. HasEnds changes.now ends.items) }
    ensures in_order { IfOk result (λ ends. IsNonDecreasingBy (λ end. end.event) ends.items) }
{
    let mut ends = all_ends(alloc, changes)?;
    ends.sort_unstable_by_key(|end| end.event);
    Ok(ends)
}

// Both ends of each change.
fn all_ends(alloc: Global, changes: &[Activity]) -> Result<Vec<ChangeEnd>, NoMemory>
    requires { length changes.now ≤ 502000 }
    ensures { IfOk result (λ ends. HasEnds changes.now ends.items) }
{
    let mut ends = Vec::with_capacity(alloc, 2 * changes.len())?;
    for index in 0..changes.len() {
        let step = &changes[index].step;
        let change = index as u32;
        ends.push(ChangeEnd {
            event: step.from,
            change,
        })?;
        ends.push(ChangeEnd {
            event: step.to,
            change,
        })?;
    }
    Ok(ends)
}

/// Where the ends at each event begin.
pub(crate) fn first_ends(
    alloc: Global,
    ends: &[ChangeEnd],
    events: usize,
) -> Result<Vec<usize>, NoMemory>
    requires few { events ≤ 100000 }
    requires in_order { IsNonDecreasingBy (λ end. end.event) ends.now }
    ensures { IfOk result
        (λ firsts. AreFirst (λ end. end.event) ends.now (λ event. event) events firsts.items) }
{
    let mut firsts = Vec::with_capacity(alloc, events)?;
    for event in 0..events as u32 {
        firsts.push(first_end(ends, event))?;
    }
    Ok(firsts)
}

// Where the ends at an event begin.
fn first_end(ends: &[ChangeEnd], event: u32) -> usize
    requires { IsNonDecreasingBy (λ end. end.event) ends.now }
    ensures { IsFirst (λ end. end.event) ends.now event result }
{
    ends.partition_point(|end| end.event < event)
}

/// Whether there is an end at an event, where its ends begin at a place.
pub(crate) fn has_end(ends: &[ChangeEnd], first: usize, event: u32) -> bool
    requires in_order { IsNonDecreasingBy (λ end. end.event) ends.now }
    requires first { IsFirst (λ end. end.event) ends.now event first }
    ensures none { result ≡ false → HasNone ends.now event }
    ensures there { result ≡ true → first < length ends.now }
{
    first < ends.len() && ends[first].event == event
}

/// A number for each 64 ends, where any of these stand together at one event.
pub(crate) fn no_limits(alloc: Global, ends: &[ChangeEnd]) -> Result<Vec<u64>, NoMemory>
    ensures { IfOk result (λ until. (until.items ≡ [])
        ⊎ (until.items ≡ replicate (length ends.now / 64 + 1) 0)) }
{
    if !has_block(ends) {
        return Ok(Vec::new(alloc));
    }
    Ok(vec![in alloc; 0; ends.len() / 64 + 1]?)
}

/// All these numbers are 0 again.
pub(crate) fn forget_limits(until: &mut Vec<u64>)
    ensures { until.new.items ≡ replicate (length until.old.items) 0 }
{
    until.fill(0);
}

// Whether 64 ends stand together at one event, at a place from which on they are looked at as one.
fn has_block(ends: &[ChangeEnd]) -> bool {
    for block in 0..ends.len() / 64 {
        if ends[64 * block].event == ends[64 * block + 63].event {
            return true;
        }
    }
    false
}
