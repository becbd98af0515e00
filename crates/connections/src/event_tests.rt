// Tests of the events of a net, which are told by their indexes.
ghost use Rattle.std.specs.Prelude.{◌≡◌, slice_get};
ghost use Rattle.connections.specs.Ends.{is_before_end};
ghost use Rattle.connections.specs.Nets.{time_at};
ghost use Rattle.connections.specs.Journeys.{arrives_at, passes_at, starts};

use crate::net::JourneyNet;
use crate::query::Query;

impl JourneyNet {
    /// Whether an event is there and is a start.
    pub(crate) fn is_start(&self, query: &Query, event: usize) -> bool
        ensures { result ≡ passes_at (starts query.now.from query.now.start) self.now event }
    {
        match self.at(event) {
            None => false,
            Some(event) => event.starts(query),
        }
    }

    /// Whether an event is there and is an arrival at a stop.
    pub(crate) fn is_arrival(&self, query: &Query, event: usize) -> bool
        ensures { result ≡ passes_at (arrives_at query.now.to) self.now event }
    {
        match self.at(event) {
            None => false,
            Some(event) => event.arrives_at(query),
        }
    }

    /// Whether an event is before the one at an end; where there is no end, each is.
    pub(crate) fn is_before(&self, end: Option<usize>, event: usize) -> bool
        ensures { result ≡ is_before_end self.now end event }
    {
        match end {
            None => true,
            Some(end) => self.event_or_none(event).time < self.event_or_none(end).time,
        }
    }
}
