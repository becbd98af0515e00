// Directions, and the places of their words.
ghost use Rattle.std.specs.Prelude.{◌≡◌, pos};
ghost use Rattle.tables.specs.declared.words.WordTable.TheVariants as tables;
ghost use Rattle.tables.specs.Columns.{word};
ghost use Rattle.tables.specs.Writing.{InColumn};
ghost use Rattle.event_tables.specs.Kinds.{direction_at, direction_place, same_direction};

/// The way in which a line is driven.
#[derive(Clone, Copy, Debug, PartialEq, Eq)]
pub enum Direction {
    Forward,
    Backward,
}

impl Direction {
    // What the word at a place of the table of words stands for.
    pub(crate) fn at(place: u32) -> Direction
        ensures { result ≡ direction_at place }
    {
        match place {
            1 => Direction::Backward,
            _ => Direction::Forward,
        }
    }

    /// Whether it is the same as another one.
    pub fn is_same(self, other: Direction) -> bool
        ensures { result ≡ same_direction self other }
    {
        match self {
            Direction::Forward => matches!(other, Direction::Forward),
            Direction::Backward => matches!(other, Direction::Backward),
        }
    }

    /// The place of its word in the table of words, from 0.
    pub fn place(self) -> u8
        ensures place { result ≡ direction_place self }
        ensures word { InColumn (word tables.Direction) (pos result) }
    {
        match self {
            Direction::Forward => 0,
            Direction::Backward => 1,
        }
    }
}
