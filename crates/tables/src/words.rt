// Tables of words that stand in columns.
ghost use Rattle.std.specs.Prelude.{◌≡◌, map};
ghost use Rattle.tables.specs.Names.{table_words};

/// A table of words that a column may hold.
#[derive(Clone, Copy, Debug, PartialEq, Eq)]
pub enum WordTable {
    EventKind,
    ActivityKind,
    PeriodicKind,
    Direction,
    NodeKind,
    ScheduleKind,
    ReasonKind,
    WaitKind,
}

impl WordTable {
    /// The words, by their places from 0.
    pub fn words(self) -> &'static [&'static str]
        ensures { map (λ word. word.now) result.now ≡ table_words self }
    {
        match self {
            WordTable::EventKind => &["departure", "arrival"],
            WordTable::ActivityKind => &["drive", "wait", "change", "sync"],
            WordTable::PeriodicKind => &["drive", "wait", "change", "sync", "headway"],
            WordTable::Direction => &[">", "<"],
            WordTable::NodeKind => &["split", "empty", "bound", "mult", "point"],
            WordTable::ScheduleKind => &["TRIP", "EMPTY"],
            WordTable::ReasonKind => &["source", "activity", "turn"],
            WordTable::WaitKind => &["cost", "keep", "drop", "split", "leaf"],
        }
    }
}
