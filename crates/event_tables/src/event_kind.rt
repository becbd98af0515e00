// Kinds of events, and the places of their words.
ghost use Rattle.std.specs.Prelude.{◌≡◌, pos, if◌then◌else◌};
ghost use Rattle.tables.specs.declared.words.WordTable.TheVariants as tables;
ghost use Rattle.tables.specs.Columns.{word};
ghost use Rattle.tables.specs.Writing.{InColumn};
ghost use Rattle.event_tables.specs.Kinds.{event_kind_at, event_kind_place, is_arrival};

/// What happens at a stop.
#[derive(Clone, Copy, Debug, PartialEq, Eq)]
pub enum EventKind {
    Departure,
    Arrival,
}

impl EventKind {
    // What the word at a place of the table of words stands for.
    pub(crate) fn at(place: u32) -> EventKind
        ensures { result ≡ event_kind_at place }
    {
        match place {
            1 => EventKind::Arrival,
            _ => EventKind::Departure,
        }
    }

    /// The place of its word in the table of words, from 0.
    pub fn place(self) -> u8
        ensures place { result ≡ event_kind_place self }
        ensures word { InColumn (word tables.EventKind) (pos result) }
    {
        match self {
            EventKind::Departure => 0,
            EventKind::Arrival => 1,
        }
    }

    /// Whether it is an arrival.
    pub fn is_arrival(self) -> bool
        ensures { result ≡ is_arrival self }
    {
        matches!(self, EventKind::Arrival)
    }

    // Where it stands among events of one time: arrivals come first.
    pub(crate) fn forward_rank(self) -> u8
        ensures { result ≡ (if is_arrival self then 0 else 1) }
    {
        match self {
            EventKind::Arrival => 0,
            EventKind::Departure => 1,
        }
    }
}
