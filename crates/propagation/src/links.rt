// Steps in the forward order of their first events.
ghost use Rattle.std.specs.Prelude.{◌≡◌, ◌<◌, ◌≤◌, ◌++◌, length, map, All, IfOk, OnOk};
ghost use Rattle.std.specs.List.{range_with_len};
ghost use Rattle.std.specs.List.Sorted.{IsNonDecreasing, IsNonDecreasingBy, IsPermutation};
ghost use Rattle.propagation.specs.DayEvents.{forward_rank};
ghost use Rattle.propagation.specs.Links.{change_links, link_of, ride_links, turn_links};

use crate::day_event::{DayEvent, forward_rank};
use crate::outgoing::Outgoing;
use crate::step::{Activity, Step};
use plan_num::NoMemory;
use std::alloc::Global;

/// A step with the rank of its first event in the forward order, and the index of its change,
/// where it is the step of one.
#[derive(Clone, Copy, Debug)]
pub struct Link {
    pub rank: u64,
    pub step: Step,
    pub change: Option<u32>,
}

/// The links of drives and waits, of turns, and of changes, by the ranks of their first events.
pub(crate) fn links_in_order(
    alloc: Global,
    events: &[DayEvent],
    rides: &[Activity],
    turns: &[Step],
    changes: &[Activity],
) -> Result<Vec<Link>, NoMemory>
    requires few { length events.now ≤ 100000 }
    requires few_changes { length changes.now ≤ 500000 }
    requires rides { All (λ ride. ride.step.from < length events.now) rides.now }
    requires turns { All (λ turn. turn.from < length events.now) turns.now }
    requires changes { All (λ change. change.step.from < length events.now) changes.now }
    ensures all { IfOk result (λ links. IsPermutation
        (ride_links events.now rides.now ++ (turn_links events.now turns.now
        ++ change_links events.now 0 changes.now)) links.items) }
    ensures in_order { IfOk result (λ links. IsNonDecreasingBy (λ link. link.rank) links.items) }
{
    let all = all_links(alloc, events, rides, turns, changes)?;
    let ranks = ranks_in_order(alloc, events)?;
    let outgoing = Outgoing::of_links(alloc, &all, events.len())?;
    let links = outgoing.by_ranks(alloc, &all, &ranks)?;
    Ok(links)
}

// The ranks of all events, the least one first.
fn ranks_in_order(alloc: Global, events: &[DayEvent]) -> Result<Vec<u64>, NoMemory>
    requires { length events.now ≤ 100000 }
    ensures all { IfOk result (λ ranks. IsPermutation
        (map (forward_rank events.now) (range_with_len 0 (length events.now))) ranks.items) }
    ensures in_order { IfOk result (λ ranks. IsNonDecreasing ranks.items) }
{
    let mut ranks = Vec::with_capacity(alloc, events.len())?;
    for event in 0..events.len() as u32 {
        ranks.push(forward_rank(events, event))?;
    }
    ranks.sort_unstable();
    Ok(ranks)
}

// The links of drives and waits, of turns, and of changes.
fn all_links(
    alloc: Global,
    events: &[DayEvent],
    rides: &[Activity],
    turns: &[Step],
    changes: &[Activity],
) -> Result<Vec<Link>, NoMemory>
    requires few { length events.now ≤ 100000 }
    requires few_changes { length changes.now ≤ 500000 }
    requires rides { All (λ ride. ride.step.from < length events.now) rides.now }
    requires turns { All (λ turn. turn.from < length events.now) turns.now }
    requires changes { All (λ change. change.step.from < length events.now) changes.now }
    ensures { IfOk result (λ links. links.items
        ≡ ride_links events.now rides.now ++ (turn_links events.now turns.now
        ++ change_links events.now 0 changes.now)) }
{
    let mut links = Vec::with_capacity(alloc, rides.len() + turns.len() + changes.len())?;
    push_rides(&mut links, events, rides)?;
    push_turns(&mut links, events, turns)?;
    push_changes(&mut links, events, changes)?;
    Ok(links)
}

// The links of drives and waits, behind others.
fn push_rides(
    links: &mut Vec<Link>,
    events: &[DayEvent],
    rides: &[Activity],
) -> Result<(), NoMemory>
    requires few { length events.now ≤ 100000 }
    requires ends { All (λ ride. ride.step.from < length events.now) rides.now }
    ensures { OnOk result (links.new.items ≡ links.old.items ++ ride_links events.now rides.now) }
{
    for ride in rides {
        links.push(link_of(events, None, &ride.step))?;
    }
    Ok(())
}

// The links of turns, behind others.
fn push_turns(links: &mut Vec<Link>, events: &[DayEvent], turns: &[Step]) -> Result<(), NoMemory>
    requires few { length events.now ≤ 100000 }
    requires ends { All (λ turn. turn.from < length events.now) turns.now }
    ensures { OnOk result (links.new.items ≡ links.old.items ++ turn_links events.now turns.now) }
{
    for turn in turns {
        links.push(link_of(events, None, turn))?;
    }
    Ok(())
}

// The links of changes, behind others.
fn push_changes(
    links: &mut Vec<Link>,
    events: &[DayEvent],
    changes: &[Activity],
) -> Result<(), NoMemory>
    requires few { length events.now ≤ 100000 }
    requires few_changes { length changes.now ≤ 500000 }
    requires ends { All (λ change. change.step.from < length events.now) changes.now }
    ensures { OnOk result
        (links.new.items ≡ links.old.items ++ change_links events.now 0 changes.now) }
{
    for (index, change) in changes.iter().enumerate() {
        links.push(link_of(events, Some(index as u32), &change.step))?;
    }
    Ok(())
}

// The link of a step.
fn link_of(events: &[DayEvent], change: Option<u32>, step: &Step) -> Link
    requires few { length events.now ≤ 100000 }
    requires from { step.now.from < length events.now }
    ensures { result ≡ link_of events.now change step.now }
{
    Link {
        rank: forward_rank(events, step.from),
        step: *step,
        change,
    }
}
