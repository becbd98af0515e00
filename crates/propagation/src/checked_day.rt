// Parts of a problem from any hand.
ghost use Rattle.std.specs.Prelude.{◌≡◌, ◌&&◌, [], is_some, length, IfOk, IfSome};
ghost use Rattle.std.specs.List.{list_all, range_with_len};
ghost use Rattle.propagation.specs.CheckedDays.{are_events, are_few, are_steps, is_activity, is_day, is_placed};
ghost use Rattle.propagation.specs.CheckedDays.{is_rising, is_soon, is_step};
ghost use Rattle.propagation.specs.LeastTimes.{time_at};
ghost use Rattle.propagation.specs.Links.{parts_of};
ghost use Rattle.propagation.specs.LeastTimes.{time_at};

use crate::checked_step::{event_at, is_activity, is_step};
use crate::day_event::DayEvent;
use crate::propagation::Propagation;
use crate::step::{Activity, Step};
use plan_num::NoMemory;
use std::alloc::Global;

// The most events, changes and steps, and the latest time at first.
const MOST_EVENTS: usize = 100_000;

const MOST_CHANGES: usize = 500_000;

const MOST_STEPS: usize = 502_000;

const LATEST_AT_FIRST: u64 = 8_589_934_590;

impl Propagation {
    /// The problem of parts, where these make one. The ids of events are their places, from 1, and
    /// each has an earliest time that is not before its planned one; each step leads forward, to an
    /// event that is planned later, or at the same time from an arrival to a departure or to a
    /// greater id; changes stand by their ids; and there are not too many, and no great times. None
    /// else.
    pub fn checked(
        alloc: Global,
        events: Vec<DayEvent>,
        earliest: Vec<u64>,
        rides: Vec<Activity>,
        changes: Vec<Activity>,
        turns: Vec<Step>,
    ) -> Result<Option<Propagation>, NoMemory>
        ensures value { IfOk result (λ some. IfSome some (λ problem. problem
            ≡ parts_of events.items earliest.items rides.items changes.items turns.items)) }
        ensures exactly { IfOk result (λ some. is_some some ≡ is_day
            (parts_of events.items earliest.items rides.items changes.items turns.items)) }
    {
        if is_day(&events, &earliest, &rides, &changes, &turns) {
            Ok(Some(Propagation::of_parts(alloc, events, earliest, rides, changes, turns)?))
        } else {
            Ok(None)
        }
    }
}

// Whether parts make a problem.
fn is_day(
    events: &[DayEvent],
    earliest: &[u64],
    rides: &[Activity],
    changes: &[Activity],
    turns: &[Step],
) -> bool
    ensures { result ≡ is_day (parts_of events.now earliest.now rides.now changes.now turns.now) }
{
    are_few(events, earliest, rides, changes, turns)
        && (are_events(events, earliest) && are_steps(events, rides, changes, turns))
}

// Whether there are not too many events and steps.
fn are_few(
    events: &[DayEvent],
    earliest: &[u64],
    rides: &[Activity],
    changes: &[Activity],
    turns: &[Step],
) -> bool
    ensures { result ≡ are_few (parts_of events.now earliest.now rides.now changes.now turns.now) }
{
    (events.len() <= MOST_EVENTS && earliest.len() == events.len())
        && (changes.len() <= MOST_CHANGES
            && rides.len() as u128 + (turns.len() as u128 + changes.len() as u128)
                <= MOST_STEPS as u128)
}

// Whether events have their places as ids, and earliest times that are not early or too late.
fn are_events(events: &[DayEvent], earliest: &[u64]) -> bool
    ensures { result ≡ are_events (parts_of events.now earliest.now [] [] []) }
{
    are_placed(events, earliest) && are_soon(earliest)
}

// Whether events have their places as ids, and none is early.
fn are_placed(events: &[DayEvent], earliest: &[u64]) -> bool
    ensures { result
        ≡ list_all (is_placed events.now earliest.now) (range_with_len 0 (length events.now)) }
{
    (0..events.len()).all(|event| is_placed(events, earliest, event))
}

// Whether an event has its place as its id, and is not early.
fn is_placed(events: &[DayEvent], earliest: &[u64], event: usize) -> bool
    ensures { result ≡ is_placed events.now earliest.now event }
{
    let at = event_at(events, event);
    at.id as u128 == event as u128 + 1 && u64::from(at.time) <= time_at(earliest, event)
}

// An earliest time, where it is there.
fn time_at(earliest: &[u64], event: usize) -> u64
    ensures { result ≡ time_at earliest.now event }
{
    earliest.get(event).copied().unwrap_or(0)
}

// Whether no earliest time is too late.
fn are_soon(earliest: &[u64]) -> bool
    ensures { result ≡ list_all is_soon earliest.now }
{
    earliest.iter().all(|time| *time <= LATEST_AT_FIRST)
}

// Whether steps lead forward, and changes stand by their ids.
fn are_steps(events: &[DayEvent], rides: &[Activity], changes: &[Activity], turns: &[Step]) -> bool
    ensures { result ≡ are_steps (parts_of events.now [] rides.now changes.now turns.now) }
{
    (are_activities(events, rides) && are_activities(events, changes))
        && (are_turns(events, turns) && is_rising(changes))
}

// Whether activities lead forward.
fn are_activities(events: &[DayEvent], activities: &[Activity]) -> bool
    ensures { result ≡ list_all (is_activity events.now) activities.now }
{
    activities
        .iter()
        .all(|activity| is_activity(events, activity))
}

// Whether turns lead forward.
fn are_turns(events: &[DayEvent], turns: &[Step]) -> bool
    ensures { result ≡ list_all (is_step events.now) turns.now }
{
    turns.iter().all(|turn| is_step(events, turn))
}

// Whether changes stand by their ids.
fn is_rising(changes: &[Activity]) -> bool
    ensures { result ≡ is_rising changes.now }
{
    changes
        .iter()
        .zip(changes.iter().skip(1))
        .all(|(change, next)| change.id < next.id)
}
