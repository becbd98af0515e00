// Events of a day, and their ranks in the forward order.
ghost use Rattle.std.specs.Prelude.{◌≡◌, ◌<◌, ◌≤◌, length};
ghost use Rattle.propagation.specs.DayEvents.{departs_later, forward_rank};

/// An event of a day: its id, which counts from 1, whether it is an arrival, and its planned time
/// in minutes.
#[derive(Clone, Copy, Debug)]
pub struct DayEvent {
    pub id: u32,
    pub arrives: bool,
    pub time: u32,
}

/// Where an event stands in the forward order, as one number: the lesser it is, the earlier the
/// event stands. The event is told by its index.
pub fn forward_rank(events: &[DayEvent], event: u32) -> u64
    requires few { length events.now ≤ 100000 }
    requires there { event < length events.now }
    ensures { result ≡ forward_rank events.now event }
{
    let at = &events[event as usize];
    u64::from(at.time) * 4_294_967_296 + (departs_later(at) + u64::from(event))
}

// What a departure comes later than an arrival of the same time.
fn departs_later(event: &DayEvent) -> u64
    ensures value { result ≡ departs_later event.now }
    ensures small { result ≤ 2147483648 }
{
    if event.arrives { 0 } else { 2_147_483_648 }
}
