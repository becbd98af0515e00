// Rows of periodic events.
ghost use Rattle.std.specs.Prelude.{◌≡◌};
ghost use Rattle.event_tables.specs.Cells.{periodic_event, periodic_event_cells, AreSmall};
ghost use Rattle.event_tables.specs.PeriodicRuns.{is_next, same_run};

use crate::cells::number;
use crate::direction::Direction;
use crate::event_kind::EventKind;
use crate::written_record::WrittenRecord;
use tables::{Record, Table};

/// A periodic event: its id, its kind, its stop, and the run of the line that it is of. Ids count
/// from 1, and the events of a run stand together.
#[derive(Clone, Copy, Debug, PartialEq, Eq)]
pub struct PeriodicEvent {
    pub id: u32,
    pub kind: EventKind,
    pub stop: u32,
    pub line: u32,
    pub direction: Direction,
    pub repetition: u32,
}

impl PeriodicEvent {
    /// Whether it agrees with another event in line, direction and repetition.
    pub fn is_same_run(&self, other: &PeriodicEvent) -> bool
        ensures { result ≡ same_run self.now other.now }
    {
        self.line == other.line
            && self.direction.is_same(other.direction)
            && self.repetition == other.repetition
    }

    /// Whether another event is the next one of its run.
    pub fn is_before(&self, next: &PeriodicEvent) -> bool
        ensures { result ≡ is_next self.now next.now }
    {
        self.is_same_run(next) && u64::from(next.id) == u64::from(self.id) + 1
    }
}

impl Record<6> for PeriodicEvent {
    ghost Fits = { AreSmall };

    ghost of_cells = { periodic_event };

    fn read(table: &Table<6>, index: usize) -> PeriodicEvent {
        PeriodicEvent {
            id: number(table, index, 0),
            kind: EventKind::at(number(table, index, 1)),
            stop: number(table, index, 2),
            line: number(table, index, 3),
            direction: Direction::at(number(table, index, 4)),
            repetition: number(table, index, 5),
        }
    }
}

impl WrittenRecord<6> for PeriodicEvent {
    ghost cells_of = { periodic_event_cells };

    fn cells(&self) -> [i64; 6] {
        [
            i64::from(self.id),
            i64::from(self.kind.place()),
            i64::from(self.stop),
            i64::from(self.line),
            i64::from(self.direction.place()),
            i64::from(self.repetition),
        ]
    }
}
