// Delays by their places, and what they delay.
ghost use Rattle.std.specs.Prelude.{◌≡◌, ◌+◌, ◌-◌, ◌≤◌, true, false, length, map, All, IfOk};
ghost use Rattle.std.specs.List.{range_with_len};
ghost use Rattle.event_tables.specs.Places.{AreNumbered, IsOneOf};
ghost use Rattle.delay_management.specs.InputProblems.{activities_of, delay_of, delayed, earliest_of, is_change_kind};

use event_tables::{ActivityKind, DelayRow, ExpandedActivity, ExpandedEvent};
use plan_num::NoMemory;
use propagation::{Activity, Step};
use std::alloc::Global;

/// The earliest times of events that are numbered, by the rows of their delays.
pub(crate) fn earliest_times(
    alloc: Global,
    events: &[ExpandedEvent],
    rows: &[DelayRow],
) -> Result<Vec<u64>, NoMemory>
    requires numbered { AreNumbered (λ event. event.id) events.now }
    requires there { All (λ row. IsOneOf (length events.now) row.id) rows.now }
    ensures times { IfOk result (λ times. times.items ≡ map (earliest_of rows.now) events.now) }
    ensures soon { IfOk result (λ times. All (λ time. time ≤ 8589934590) times.items) }
{
    let delays = delays_by_place(alloc, rows, events.len())?;
    let mut times = Vec::with_capacity(alloc, events.len())?;
    for (index, event) in events.iter().enumerate() {
        times.push(delayed_time(event, delays[index]))?;
    }
    Ok(times)
}

// The time of an event with its delay.
fn delayed_time(event: &ExpandedEvent, delay: u32) -> u64
    ensures value { result ≡ event.now.time + delay }
    ensures soon { result ≤ 8589934590 }
{
    u64::from(event.time) + u64::from(delay)
}

/// Activities with their delays: the drives and waits, and the changes.
#[derive(Drop)]
pub(crate) struct RidesAndChanges {
    pub(crate) rides: Vec<Activity>,
    pub(crate) changes: Vec<Activity>,
}

/// Activities that are numbered, with their delays by the rows of these.
pub(crate) fn delayed_activities(
    alloc: Global,
    activities: &[ExpandedActivity],
    rows: &[DelayRow],
) -> Result<RidesAndChanges, NoMemory>
    requires numbered { AreNumbered (λ activity. activity.id) activities.now }
    requires there { All (λ row. IsOneOf (length activities.now) row.id) rows.now }
    requires ends { All (λ activity. (1 ≤ activity.from) × (1 ≤ activity.to)) activities.now }
    ensures rides { IfOk result
        (λ all. all.rides.items ≡ activities_of false rows.now activities.now) }
    ensures changes { IfOk result
        (λ all. all.changes.items ≡ activities_of true rows.now activities.now) }
{
    let delays = delays_by_place(alloc, rows, activities.len())?;
    let mut rides = Vec::new(alloc);
    let mut changes = Vec::new(alloc);
    for (index, activity) in activities.iter().enumerate() {
        let delayed = delayed(activity, delays[index]);
        if is_change(activity.kind) {
            changes.push(delayed)?;
        } else {
            rides.push(delayed)?;
        }
    }
    Ok(RidesAndChanges { rides, changes })
}

// Whether activities of a kind are changes.
fn is_change(kind: ActivityKind) -> bool
    ensures { result ≡ is_change_kind kind }
{
    matches!(kind, ActivityKind::Change)
}

// An activity with its delay.
fn delayed(activity: &ExpandedActivity, delay: u32) -> Activity
    requires from { 1 ≤ activity.now.from }
    requires to { 1 ≤ activity.now.to }
    ensures { result ≡ record {
      id = activity.now.id;
      step = record {
        from = activity.now.from - 1;
        to = activity.now.to - 1;
        lower = activity.now.lower;
        extra = delay;
      };
    } }
{
    Activity {
        id: activity.id,
        step: Step {
            from: activity.from - 1,
            to: activity.to - 1,
            lower: activity.lower,
            extra: delay,
        },
    }
}

// The delays of so many things by their places. The first row of an id counts, so the rows are
// taken from the last one on.
fn delays_by_place(alloc: Global, rows: &[DelayRow], count: usize) -> Result<Vec<u32>, NoMemory>
    requires { All (λ row. IsOneOf count row.id) rows.now }
    ensures { IfOk result (λ delays. delays.items
        ≡ map (delay_of rows.now) (range_with_len 1 count)) }
{
    let mut delays = vec![in alloc; 0; count]?;
    let mut left = rows.len();
    while left > 0 {
        left -= 1;
        let row = rows[left];
        delays[row.id as usize - 1] = row.delay;
    }
    Ok(delays)
}
