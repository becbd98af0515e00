// Rows of a vehicle schedule.
ghost use Rattle.std.specs.Prelude.{◌≡◌};
ghost use Rattle.event_tables.specs.Cells.{schedule_row, schedule_cells, AreSmall};

use crate::cells::number;
use crate::schedule_kind::ScheduleKind;
use crate::trip::{Trip, TripEnd};
use crate::written_record::WrittenRecord;
use tables::{Record, Table};

/// A row of a vehicle schedule: its circulation, its vehicle, its number among the rows of the
/// vehicle, what it is, and the run from one event to another. The line of an empty ride is 0.
#[derive(Clone, Copy, Debug, PartialEq, Eq)]
pub struct ScheduleRow {
    pub circulation: u32,
    pub vehicle: u32,
    pub number: u32,
    pub kind: ScheduleKind,
    pub run: Trip,
}

impl Record<13> for ScheduleRow {
    ghost Fits = { AreSmall };

    ghost of_cells = { schedule_row };

    fn read(table: &Table<13>, index: usize) -> ScheduleRow {
        ScheduleRow {
            circulation: number(table, index, 0),
            vehicle: number(table, index, 1),
            number: number(table, index, 2),
            kind: ScheduleKind::at(number(table, index, 3)),
            run: Trip {
                start: TripEnd::read(table, index, 4),
                end: TripEnd::read(table, index, 8),
                line: number(table, index, 12),
            },
        }
    }
}

impl WrittenRecord<13> for ScheduleRow {
    ghost cells_of = { schedule_cells };

    fn cells(&self) -> [i64; 13] {
        let (start, end) = (self.run.start, self.run.end);
        [
            i64::from(self.circulation),
            i64::from(self.vehicle),
            i64::from(self.number),
            i64::from(self.kind.place()),
            i64::from(start.event),
            i64::from(start.periodic),
            i64::from(start.stop),
            i64::from(start.time),
            i64::from(end.event),
            i64::from(end.periodic),
            i64::from(end.stop),
            i64::from(end.time),
            i64::from(self.run.line),
        ]
    }
}
