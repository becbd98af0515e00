// How events are reached.
ghost use Rattle.std.specs.Prelude.{◌≡◌};
ghost use Rattle.connections.specs.Ways.{first_way, is_reached, or_by, way_at};

use crate::query::Query;
use crate::timed_event::TimedEvent;

/// How an event is reached.
#[derive(Clone, Copy, Debug)]
pub(crate) enum Way {
    /// By no ride from a start.
    Unreached,
    /// It is a start.
    Start,
    /// By the connection at this index, the first one into it from an event that can be reached.
    By { connection: u32 },
}

impl Way {
    /// The way into an event before any connection is looked at.
    pub(crate) fn first(event: &TimedEvent, query: &Query) -> Way
        ensures { result ≡ first_way query.now.from query.now.start event.now }
    {
        if event.starts(query) {
            Way::Start
        } else {
            Way::Unreached
        }
    }

    /// Whether the event can be reached.
    pub(crate) fn is_reached(self) -> bool
        ensures { result ≡ is_reached self }
    {
        !matches!(self, Way::Unreached)
    }

    /// The way into an event where a connection leads to it from an event that can be reached.
    pub(crate) fn or_by(self, connection: u32) -> Way
        ensures { result ≡ or_by self connection }
    {
        match self {
            Way::Unreached => Way::By { connection },
            Way::Start => Way::Start,
            Way::By { connection: other } => Way::By {
                connection: other.min(connection),
            },
        }
    }
}

/// The way into the event at an index.
pub(crate) fn way_at(ways: &[Way], event: usize) -> Way
    ensures { result ≡ way_at ways.now event }
{
    ways.get(event).copied().unwrap_or(Way::Unreached)
}
