// Events at their times.
ghost use Rattle.std.specs.Prelude.{◌≡◌, pos, int_le};
ghost use Rattle.std.specs.Ordering.{int_eq};
ghost use Rattle.connections.specs.Kinds.{is_arrival};
ghost use Rattle.connections.specs.Journeys.{arrives_at, starts};

use crate::event_kind::EventKind;
use crate::query::Query;

/// An event of a day: its kind, its stop, and its planned or disposed time in minutes.
#[derive(Clone, Copy, Debug)]
pub struct TimedEvent {
    pub kind: EventKind,
    pub stop: u32,
    pub time: u64,
}

impl TimedEvent {
    /// Whether it is a departure from which a journey may start.
    pub(crate) fn starts(&self, query: &Query) -> bool
        ensures { result ≡ starts query.now.from query.now.start self.now }
    {
        !self.is_arrival() && self.is_at(query.from) && self.is_from(query.start)
    }

    /// Whether it is an arrival with which a journey may end.
    pub(crate) fn arrives_at(&self, query: &Query) -> bool
        ensures { result ≡ arrives_at query.now.to self.now }
    {
        self.is_arrival() && self.is_at(query.to)
    }

    // Whether it is an arrival.
    fn is_arrival(&self) -> bool
        ensures { result ≡ is_arrival self.now.kind }
    {
        match self.kind {
            EventKind::Departure => false,
            EventKind::Arrival => true,
        }
    }

    // Whether it is at a stop.
    fn is_at(&self, stop: i64) -> bool
        ensures { result ≡ int_eq stop (pos self.now.stop) }
    {
        stop == i64::from(self.stop)
    }

    // Whether it is at a time or later.
    fn is_from(&self, start: i64) -> bool
        ensures { result ≡ int_le start (pos self.now.time) }
    {
        i128::from(start) <= i128::from(self.time)
    }
}
