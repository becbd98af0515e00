// Rows of expanded events.
ghost use Rattle.std.specs.Prelude.{◌≡◌};
ghost use Rattle.event_tables.specs.Cells.{expanded_event, expanded_event_cells, AreSmall};

use crate::cells::number;
use crate::event_kind::EventKind;
use crate::written_record::WrittenRecord;
use tables::{Record, Table};

/// An event of a day: its id, the id of its periodic event, its kind, its planned time in minutes,
/// and its stop.
#[derive(Clone, Copy, Debug, PartialEq, Eq)]
pub struct ExpandedEvent {
    pub id: u32,
    pub periodic: u32,
    pub kind: EventKind,
    pub time: u32,
    pub stop: u32,
}

impl Record<5> for ExpandedEvent {
    ghost Fits = { AreSmall };

    ghost of_cells = { expanded_event };

    fn read(table: &Table<5>, index: usize) -> ExpandedEvent {
        ExpandedEvent {
            id: number(table, index, 0),
            periodic: number(table, index, 1),
            kind: EventKind::at(number(table, index, 2)),
            time: number(table, index, 3),
            stop: number(table, index, 4),
        }
    }
}

impl WrittenRecord<5> for ExpandedEvent {
    ghost cells_of = { expanded_event_cells };

    fn cells(&self) -> [i64; 5] {
        [
            i64::from(self.id),
            i64::from(self.periodic),
            i64::from(self.kind.place()),
            i64::from(self.time),
            i64::from(self.stop),
        ]
    }
}
