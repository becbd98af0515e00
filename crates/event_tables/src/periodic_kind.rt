// Kinds of periodic activities, and the places of their words.
ghost use Rattle.std.specs.Prelude.{◌≡◌, pos};
ghost use Rattle.tables.specs.declared.words.WordTable.TheVariants as tables;
ghost use Rattle.tables.specs.Columns.{word};
ghost use Rattle.tables.specs.Writing.{InColumn};
ghost use Rattle.event_tables.specs.Kinds.{periodic_kind_at, periodic_kind_place};
ghost use Rattle.event_tables.specs.PeriodicRuns.{joins};

use crate::periodic_event::PeriodicEvent;

/// What joins two events of a period.
#[derive(Clone, Copy, Debug, PartialEq, Eq)]
pub enum PeriodicKind {
    /// From a departure to the next event of its run.
    Drive,
    /// From an arrival to the next event of its run.
    Wait,
    /// From an arrival to a departure of another line at the same stop.
    Change,
    /// Between two departures.
    Sync,
    /// Between two departures at the same stop.
    Headway,
}

impl PeriodicKind {
    // What the word at a place of the table of words stands for.
    pub(crate) fn at(place: u32) -> PeriodicKind
        ensures { result ≡ periodic_kind_at place }
    {
        match place {
            1 => PeriodicKind::Wait,
            2 => PeriodicKind::Change,
            3 => PeriodicKind::Sync,
            4 => PeriodicKind::Headway,
            _ => PeriodicKind::Drive,
        }
    }

    /// The place of its word in the table of words, from 0.
    pub fn place(self) -> u8
        ensures place { result ≡ periodic_kind_place self }
        ensures word { InColumn (word tables.PeriodicKind) (pos result) }
    {
        match self {
            PeriodicKind::Drive => 0,
            PeriodicKind::Wait => 1,
            PeriodicKind::Change => 2,
            PeriodicKind::Sync => 3,
            PeriodicKind::Headway => 4,
        }
    }

    /// Whether an activity of the kind may go from an event to another.
    pub fn joins(self, event: &PeriodicEvent, next: &PeriodicEvent) -> bool
        ensures { result ≡ joins self event.now next.now }
    {
        let (arrives, departs) = (event.kind.is_arrival(), !next.kind.is_arrival());
        match self {
            PeriodicKind::Drive => !arrives && event.is_before(next),
            PeriodicKind::Wait => arrives && event.is_before(next),
            PeriodicKind::Change => {
                arrives && departs && event.stop == next.stop && event.line != next.line
            }
            PeriodicKind::Sync => !arrives && departs,
            PeriodicKind::Headway => !arrives && departs && event.stop == next.stop,
        }
    }
}
