// Rows of trips.
ghost use Rattle.std.specs.Prelude.{◌≡◌, ◌+◌, ◌<◌, ◌≤◌, nat_le, length, slice_index_or};
ghost use Rattle.tables.specs.Tables.{no_row};
ghost use Rattle.event_tables.specs.Cells.{trip, trip_end, trip_cells, AreSmall};

use crate::cells::number;
use crate::written_record::WrittenRecord;
use tables::{Record, Table};

/// The start or the end of a trip: the id of an event of the day, the id of its periodic event, its
/// stop, and its planned time in minutes.
#[derive(Clone, Copy, Debug, PartialEq, Eq)]
pub struct TripEnd {
    pub event: u32,
    pub periodic: u32,
    pub stop: u32,
    pub time: u32,
}

/// A trip of a line, from its first event to its last one.
#[derive(Clone, Copy, Debug, PartialEq, Eq)]
pub struct Trip {
    pub start: TripEnd,
    pub end: TripEnd,
    pub line: u32,
}

impl TripEnd {
    // The end of a trip whose cells stand in a row from a column on.
    pub(crate) fn read<const C: usize>(table: &Table<C>, row: usize, column: usize) -> TripEnd
        requires row_in { row < length table.now }
        requires column_in { column + 4 ≤ C }
        requires fits { AreSmall (slice_index_or table.now row no_row).cells }
        ensures { result ≡ trip_end (slice_index_or table.now row no_row).cells column }
    {
        TripEnd {
            event: number(table, row, column),
            periodic: number(table, row, column + 1),
            stop: number(table, row, column + 2),
            time: number(table, row, column + 3),
        }
    }
}

impl Trip {
    /// Whether it ends no later than it starts.
    pub(crate) fn takes_no_time(&self) -> bool
        ensures { result ≡ nat_le self.now.end.time self.now.start.time }
    {
        self.end.time <= self.start.time
    }
}

impl Record<9> for Trip {
    ghost Fits = { AreSmall };

    ghost of_cells = { trip };

    fn read(table: &Table<9>, index: usize) -> Trip {
        Trip {
            start: TripEnd::read(table, index, 0),
            end: TripEnd::read(table, index, 4),
            line: number(table, index, 8),
        }
    }
}

impl WrittenRecord<9> for Trip {
    ghost cells_of = { trip_cells };

    fn cells(&self) -> [i64; 9] {
        [
            i64::from(self.start.event),
            i64::from(self.start.periodic),
            i64::from(self.start.stop),
            i64::from(self.start.time),
            i64::from(self.end.event),
            i64::from(self.end.periodic),
            i64::from(self.end.stop),
            i64::from(self.end.time),
            i64::from(self.line),
        ]
    }
}
