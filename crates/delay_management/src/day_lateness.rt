// How late the arrivals of expanded events are.
ghost use Rattle.std.specs.Prelude.{◌≡◌, ◌≤◌, length, All};
ghost use Rattle.delay_management.specs.DayLateness.{delay_at};
ghost use Rattle.propagation.specs.declared.times.TheConstants.{LATEST};

use crate::bundle_problem::day_event;
use event_tables::ExpandedEvent;
use propagation::more_delay;

/// How late all arrivals are together, in minutes.
pub fn delay_at(events: &[ExpandedEvent], times: &[u64]) -> i128
    requires few { length events.now ≤ 100000 }
    requires each { length times.now ≡ length events.now }
    requires small { All (λ time. time ≤ LATEST) times.now }
    ensures { result ≡ delay_at events.now times.now }
{
    let mut sum = 0;
    for (index, event) in events.iter().enumerate() {
        sum += more_delay(&day_event(event), u64::from(event.time), times[index]);
    }
    sum
}
