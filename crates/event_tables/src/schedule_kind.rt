// Kinds of rows of a schedule, and the places of their words.
ghost use Rattle.std.specs.Prelude.{◌≡◌, pos};
ghost use Rattle.tables.specs.declared.words.WordTable.TheVariants as tables;
ghost use Rattle.tables.specs.Columns.{word};
ghost use Rattle.tables.specs.Writing.{InColumn};
ghost use Rattle.event_tables.specs.Kinds.{schedule_kind_at, schedule_kind_place, is_empty};

/// What a row of a vehicle schedule is.
#[derive(Clone, Copy, Debug, PartialEq, Eq)]
pub enum ScheduleKind {
    /// A trip.
    Trip,
    /// The empty ride between two trips.
    Empty,
}

impl ScheduleKind {
    // What the word at a place of the table of words stands for.
    pub(crate) fn at(place: u32) -> ScheduleKind
        ensures { result ≡ schedule_kind_at place }
    {
        match place {
            1 => ScheduleKind::Empty,
            _ => ScheduleKind::Trip,
        }
    }

    /// The place of its word in the table of words, from 0.
    pub fn place(self) -> u8
        ensures place { result ≡ schedule_kind_place self }
        ensures word { InColumn (word tables.ScheduleKind) (pos result) }
    {
        match self {
            ScheduleKind::Trip => 0,
            ScheduleKind::Empty => 1,
        }
    }

    // Whether it is an empty ride.
    pub(crate) fn is_empty(self) -> bool
        ensures { result ≡ is_empty self }
    {
        matches!(self, ScheduleKind::Empty)
    }
}
