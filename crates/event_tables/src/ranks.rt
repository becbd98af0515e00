// Ranks of events in the forward order.
ghost use Rattle.std.specs.Prelude.{◌≡◌, ◌<◌, ◌≤◌, length};
ghost use Rattle.event_tables.specs.ForwardRanks.{departs_later, forward_rank};

use crate::event_kind::EventKind;
use crate::expanded_event::ExpandedEvent;

/// Where an event stands in the forward order, as one number: the lesser it is, the earlier the
/// event stands. The event is told by its index.
pub fn forward_rank(events: &[ExpandedEvent], event: u32) -> u64
    requires few { length events.now ≤ 100000 }
    requires there { event < length events.now }
    ensures { result ≡ forward_rank events.now event }
{
    let at = &events[event as usize];
    u64::from(at.time) * 4_294_967_296 + (departs_later(at) + u64::from(event))
}

// What a departure comes later than an arrival of the same time.
fn departs_later(event: &ExpandedEvent) -> u64
    ensures value { result ≡ departs_later event.now }
    ensures small { result ≤ 2147483648 }
{
    match event.kind {
        EventKind::Arrival => 0,
        EventKind::Departure => 2_147_483_648,
    }
}
