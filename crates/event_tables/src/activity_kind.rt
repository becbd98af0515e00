// Kinds of activities of a day, and the places of their words.
ghost use Rattle.std.specs.Prelude.{◌≡◌, pos};
ghost use Rattle.tables.specs.declared.words.WordTable.TheVariants as tables;
ghost use Rattle.tables.specs.Columns.{word};
ghost use Rattle.tables.specs.Writing.{InColumn};
ghost use Rattle.event_tables.specs.Kinds.{activity_kind_at, activity_kind_place, is_sync};

/// What joins two events of a day.
#[derive(Clone, Copy, Debug, PartialEq, Eq)]
pub enum ActivityKind {
    /// From a departure to the next event of its run.
    Drive,
    /// From an arrival to the next event of its run.
    Wait,
    /// From an arrival to a departure of another line at the same stop.
    Change,
    /// Between two departures.
    Sync,
}

impl ActivityKind {
    // What the word at a place of the table of words stands for.
    pub(crate) fn at(place: u32) -> ActivityKind
        ensures { result ≡ activity_kind_at place }
    {
        match place {
            1 => ActivityKind::Wait,
            2 => ActivityKind::Change,
            3 => ActivityKind::Sync,
            _ => ActivityKind::Drive,
        }
    }

    /// The place of its word in the table of words, from 0.
    pub fn place(self) -> u8
        ensures place { result ≡ activity_kind_place self }
        ensures word { InColumn (word tables.ActivityKind) (pos result) }
    {
        match self {
            ActivityKind::Drive => 0,
            ActivityKind::Wait => 1,
            ActivityKind::Change => 2,
            ActivityKind::Sync => 3,
        }
    }

    // Whether it joins two departures.
    pub(crate) fn is_sync(self) -> bool
        ensures { result ≡ is_sync self }
    {
        matches!(self, ActivityKind::Sync)
    }
}
