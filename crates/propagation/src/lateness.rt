// How late times are.
ghost use Rattle.std.specs.Prelude.{◌≡◌, ◌≤◌, ◌≤ℤ◌, pos, neg_ℤ, length, All};
ghost use Rattle.propagation.specs.Lateness.{delay_at, is_missed, missed_at, more_delay};
ghost use Rattle.propagation.specs.Problems.{Joins};
ghost use Rattle.propagation.specs.declared.times.TheConstants.{LATEST};

use crate::day_event::DayEvent;
use crate::step::Activity;

/// How late all arrivals are together, in minutes.
pub fn delay_at(events: &[DayEvent], times: &[u64]) -> i128
    requires few { length events.now ≤ 100000 }
    requires each { length times.now ≡ length events.now }
    requires small { All (λ time. time ≤ LATEST) times.now }
    ensures { result ≡ delay_at events.now times.now }
{
    let mut sum = 0;
    for (index, event) in events.iter().enumerate() {
        sum += more_delay(event, u64::from(event.time), times[index]);
    }
    sum
}

// Whether an event is an arrival.
fn is_arrival(event: &DayEvent) -> bool
    ensures { result ≡ event.now.arrives }
{
    event.arrives
}

/// How much later than at one time an event is at another, where it is an arrival.
pub fn more_delay(event: &DayEvent, before: u64, time: u64) -> i128
    requires before { before ≤ LATEST }
    requires time { time ≤ LATEST }
    ensures value { result ≡ more_delay event.now before time }
    ensures most { result ≤ℤ pos LATEST }
    ensures least { neg_ℤ (pos LATEST) ≤ℤ result }
{
    if is_arrival(event) {
        i128::from(time) - i128::from(before)
    } else {
        0
    }
}

/// How many changes are missed.
pub fn missed_at(changes: &[Activity], times: &[u64]) -> usize
    requires ends { All (λ change. Joins (length times.now) change.step) changes.now }
    requires small { All (λ time. time ≤ LATEST) times.now }
    ensures { result ≡ missed_at changes.now times.now }
{
    let mut missed = 0;
    for change in changes {
        if is_missed(change, times) {
            missed += 1;
        }
    }
    missed
}

// Whether a change is missed.
fn is_missed(change: &Activity, times: &[u64]) -> bool
    requires ends { Joins (length times.now) change.now.step }
    requires small { All (λ time. time ≤ LATEST) times.now }
    ensures { result ≡ is_missed times.now change.now }
{
    let (from, to) = (change.step.from as usize, change.step.to as usize);
    times[to] < times[from] + u64::from(change.step.lower)
}
