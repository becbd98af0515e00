// Steps from any hand.
ghost use Rattle.std.specs.Prelude.{◌≡◌};
ghost use Rattle.propagation.specs.CheckedDays.{goes_on, is_activity, is_step, joins};
ghost use Rattle.propagation.specs.DayEvents.{stands_before};
ghost use Rattle.propagation.specs.Problems.{event_at};

use crate::day_event::DayEvent;
use crate::step::{Activity, Step};

// The greatest id of an activity, and the most minutes that a step takes beyond those between its
// events.
const MOST_ID: u32 = 500_000;

const MOST_GAIN: u64 = 1_100_000;

/// Whether an activity has a small id, and its step leads forward.
pub(crate) fn is_activity(events: &[DayEvent], activity: &Activity) -> bool
    ensures { result ≡ is_activity events.now activity.now }
{
    activity.id <= MOST_ID && is_step(events, &activity.step)
}

/// Whether a step leads forward, and does not take too long.
pub(crate) fn is_step(events: &[DayEvent], step: &Step) -> bool
    ensures { result ≡ is_step events.now step.now }
{
    joins(events.len(), step) && goes_on(events, step)
}

// Whether a step joins two of so many events.
fn joins(count: usize, step: &Step) -> bool
    ensures { result ≡ joins count step.now }
{
    (step.from as usize) < count && (step.to as usize) < count
}

// Whether a step leads forward, and does not take too long.
fn goes_on(events: &[DayEvent], step: &Step) -> bool
    ensures { result ≡ goes_on events.now step.now }
{
    let tail = event_at(events, step.from as usize);
    let head = event_at(events, step.to as usize);
    tail.stands_before(&head)
        && u64::from(tail.time) + step.minutes() <= u64::from(head.time) + MOST_GAIN
}

/// The event at an index, where it is there.
pub(crate) fn event_at(events: &[DayEvent], event: usize) -> DayEvent
    ensures { result ≡ event_at events.now event }
{
    events.get(event).copied().unwrap_or(DayEvent {
        id: 0,
        arrives: false,
        time: 0,
    })
}

impl DayEvent {
    // Whether it stands before another one in the forward order.
    fn stands_before(&self, other: &DayEvent) -> bool
        ensures { result ≡ stands_before self.now other.now }
    {
        if self.time != other.time {
            return self.time < other.time;
        }
        if self.arrives != other.arrives {
            return self.arrives;
        }
        self.id < other.id
    }
}
