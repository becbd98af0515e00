// Events of a day by their ids, and their forward order.
ghost use Rattle.std.specs.Prelude.{◌≡◌, false, length, slice_get, Some, if◌then◌else◌};
ghost use Rattle.std.specs.List.{range_with_len};
ghost use Rattle.event_tables.specs.ForwardOrder.{stands_before, event_with, goes_forward};
ghost use Rattle.event_tables.specs.Places.{AreNumbered, is_none_of};

use crate::expanded_event::ExpandedEvent;

impl ExpandedEvent {
    /// Whether it stands before another event in the forward order: by planned time, arrivals
    /// first, then by id.
    pub fn stands_before(&self, other: &ExpandedEvent) -> bool
        ensures { result ≡ stands_before self.now other.now }
    {
        if self.time != other.time {
            return self.time < other.time;
        }
        let (rank, other_rank) = (self.kind.forward_rank(), other.kind.forward_rank());
        if rank != other_rank {
            return rank < other_rank;
        }
        self.id < other.id
    }
}

/// The event of an id that is one of numbered events.
pub(crate) fn event_of(events: &[ExpandedEvent], id: u32) -> ExpandedEvent
    requires numbered { AreNumbered (λ event. event.id) events.now }
    requires known { is_none_of (range_with_len 1 (length events.now)) id ≡ false }
    ensures { event_with events.now id ≡ Some result }
{
    events[id as usize - 1]
}

/// Whether the event of an id stands before that of another, where both are among numbered events.
pub(crate) fn goes_forward(events: &[ExpandedEvent], from: u32, to: u32) -> bool
    requires numbered { AreNumbered (λ event. event.id) events.now }
    requires from_known { is_none_of (range_with_len 1 (length events.now)) from ≡ false }
    requires to_known { is_none_of (range_with_len 1 (length events.now)) to ≡ false }
    ensures { result ≡ goes_forward events.now from to }
{
    event_of(events, from).stands_before(&event_of(events, to))
}
