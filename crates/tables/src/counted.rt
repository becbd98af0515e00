// Lists that have a limit.
ghost use Rattle.std.specs.Prelude.{Some};
ghost use Rattle.tables.specs.CountedTexts.{counted_text};

use std::fmt;

/// A list whose length has a limit.
#[derive(Clone, Copy, Debug, PartialEq, Eq)]
pub enum Counted {
    Stops,
    Edges,
    Lines,
    DemandRows,
    Frequency,
    PeriodicEvents,
    PeriodicActivities,
    Trips,
    ExpandedEvents,
    ExpandedActivities,
}

impl fmt::Display for Counted {
    ghost output = { λ counted. Some (counted_text counted) };

    fn fmt<W: fmt::Write>(&self, f: &mut fmt::Formatter<W>) -> fmt::Result {
        match self {
            Counted::Stops => write!(f, "stops"),
            Counted::Edges => write!(f, "edges"),
            Counted::Lines => write!(f, "lines"),
            Counted::DemandRows => write!(f, "demand rows"),
            Counted::Frequency => write!(f, "frequency"),
            Counted::PeriodicEvents => write!(f, "periodic events"),
            Counted::PeriodicActivities => write!(f, "periodic activities"),
            Counted::Trips => write!(f, "trips"),
            Counted::ExpandedEvents => write!(f, "expanded events"),
            Counted::ExpandedActivities => write!(f, "expanded activities"),
        }
    }
}
