// The least times for a set of kept changes, and what they tell.
ghost use Rattle.std.specs.Prelude.{ℕ, List, ◌≡◌, ◌<◌, ◌≤◌, ◌≤ℤ◌, pos, length, map, slice_get, Some, option_map, All};
ghost use Rattle.std.specs.Prelude.{IfOk};
ghost use Rattle.std.specs.List.Sorted.{IsStrictlyIncreasing};
ghost use Rattle.propagation.specs.Lateness.{delay_at, is_broken};
ghost use Rattle.propagation.specs.LeastTimes.{IsLeast, least_times, time_at};
ghost use Rattle.propagation.specs.Problems.{IsForward, Joins, earliest_at, planned_at};
ghost use Rattle.propagation.specs.Waiting.{GrowWithKept, chosen_changes};

use crate::lateness::delay_at;
use crate::propagation::Propagation;
use crate::reasons::asked;
use crate::step::Activity;
use plan_num::{NUMBER_LIMIT, NoMemory};
use std::alloc::Global;
use std::marker::Model;

/// The latest time that an event may have, in minutes: what a file of times holds at most. What a
/// step asks of its head still fits a `u64` then, and how late 100,000 events are an `i128`.
pub const LATEST: u64 = NUMBER_LIMIT;

/// The time of each event, in minutes, none after `LATEST`. Contracts see it as the list of these.
#[derive(Debug, Drop)]
pub struct Times {
    times: Vec<u64>,
}

impl Model for Times {
    ghost use Rattle.std.specs.Prelude.{ℕ, ◌≤◌, List, All};
    ghost use Rattle.propagation.specs.declared.times.TheConstants.{LATEST};

    ghost Value = { List ℕ };

    ghost view = { λ t. t.times.items };

    ghost invariant = { λ t. All (λ time. time ≤ LATEST) t.times.items };
}

impl Times {
    /// The time of an event, by its index.
    pub fn at(&self, event: usize) -> i64
        requires { event < length self.now }
        ensures { result ≡ pos (time_at self.now event) }
    {
        time_of(&self.times, event)
    }
}

impl Propagation {
    /// The least times where some changes are kept, told by one value for each change: no event is
    /// before its earliest time, and each step of a ride, of a turn and of a kept change has its
    /// minutes. There are no other least times, and no event is earlier than where fewer changes
    /// are kept.
    pub fn least(&self, alloc: Global, kept: &[bool]) -> Result<Times, NoMemory>
        ensures times { IfOk result
            (λ times. times ≡ least_times self.now (chosen_changes self.now kept.now)) }
        ensures least { IfOk result
            (λ times. IsLeast self.now (chosen_changes self.now kept.now) times) }
        ensures one { IfOk result (λ times. (others : List ℕ)
            → IsLeast self.now (chosen_changes self.now kept.now) others → others ≡ times) }
        ensures grow { IfOk result (GrowWithKept self.now kept.now) }
        ensures each { IfOk result (λ times. length times ≡ length self.now.events) }
        ensures small { IfOk result (λ times. All (λ time. time ≤ 600000000000) times) }
        ensures few { length self.now.events ≤ 100000 }
        ensures late { (event : ℕ) → event < length self.now.events
            → planned_at self.now.events event ≤ earliest_at self.now event }
    {
        let times = self.least_times(alloc, kept)?;
        Ok(Times { times })
    }

    /// How many events there are.
    pub fn event_count(&self) -> usize
        ensures count { result ≡ length self.now.events }
        ensures few { length self.now.events ≤ 100000 }
        ensures late { (event : ℕ) → event < length self.now.events
            → planned_at self.now.events event ≤ earliest_at self.now event }
    {
        self.events().len()
    }

    /// How many changes there are. They stand by their ids, steps go forward, and no event is at its
    /// earliest before its planned time.
    pub fn change_count(&self) -> usize
        ensures count { result ≡ length self.now.changes }
        ensures few { length self.now.changes ≤ 502000 }
        ensures forward { IsForward self.now }
        ensures rise { IsStrictlyIncreasing (map (λ change. change.id) self.now.changes) }
        ensures late { (event : ℕ) → event < length self.now.events
            → planned_at self.now.events event ≤ earliest_at self.now event }
    {
        self.changes().len()
    }

    /// The id of a change, by its index.
    pub fn change_id(&self, change: usize) -> i64
        requires { change < length self.now.changes }
        ensures id { option_map (λ change. pos change.id) (slice_get self.now.changes change)
            ≡ Some result }
        ensures least { pos 0 ≤ℤ result }
        ensures most { result ≤ℤ pos 500000 }
    {
        i64::from(self.changes()[change].id)
    }

    /// Whether times break a change: its departure is earlier than the arrival, its least minutes
    /// and its delay allow.
    pub fn broken(&self, times: &Times, change: usize) -> bool
        requires each { length times.now ≡ length self.now.events }
        requires there { change < length self.now.changes }
        ensures { option_map (is_broken times.now) (slice_get self.now.changes change)
            ≡ Some result }
    {
        is_broken(&times.times, &self.changes()[change])
    }

    /// How late all arrivals are together, in minutes.
    pub fn delay(&self, times: &Times) -> i128
        requires { length times.now ≡ length self.now.events }
        ensures { result ≡ delay_at self.now.events times.now }
    {
        delay_at(self.events(), &times.times)
    }
}

// The time of an event.
fn time_of(times: &[u64], event: usize) -> i64
    requires there { event < length times.now }
    requires small { All (λ time. time ≤ LATEST) times.now }
    ensures { result ≡ pos (time_at times.now event) }
{
    times[event] as i64
}

/// Whether times break a change.
pub fn is_broken(times: &[u64], change: &Activity) -> bool
    requires ends { Joins (length times.now) change.now.step }
    requires small { All (λ time. time ≤ LATEST) times.now }
    ensures { result ≡ is_broken times.now change.now }
{
    times[change.step.to as usize] < asked(times, &change.step)
}
