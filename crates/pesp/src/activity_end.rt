// The two ends of an activity.
ghost use Rattle.std.specs.Prelude.{◌≡◌};
ghost use Rattle.pesp.specs.Revising.{event_at, other_end};

use crate::activity::PespActivity;

/// One of the two ends of an activity: that of the event from which it goes, or that of the event
/// to which it goes.
#[derive(Clone, Copy)]
pub(crate) enum ActivityEnd {
    First,
    Second,
}

impl ActivityEnd {
    /// The end on the other side.
    pub(crate) fn other(self) -> ActivityEnd
        ensures { result ≡ other_end self }
    {
        match self {
            ActivityEnd::First => ActivityEnd::Second,
            ActivityEnd::Second => ActivityEnd::First,
        }
    }

    /// The event at this end of an activity.
    pub(crate) fn event(self, activity: PespActivity) -> usize
        ensures { result ≡ event_at activity self }
    {
        match self {
            ActivityEnd::First => activity.from,
            ActivityEnd::Second => activity.to,
        }
    }
}
