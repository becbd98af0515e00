// Rows of a periodic timetable.
ghost use Rattle.std.specs.Prelude.{◌≡◌, nat_le};
ghost use Rattle.event_tables.specs.Cells.{periodic_time, periodic_time_cells, AreSmall};

use crate::cells::number;
use crate::written_record::WrittenRecord;
use tables::{Record, Table};

/// The time of a periodic event in the period, in minutes.
#[derive(Clone, Copy, Debug, PartialEq, Eq)]
pub struct PeriodicTime {
    pub event: u32,
    pub time: u32,
}

impl PeriodicTime {
    /// Whether it is not below a period.
    pub(crate) fn is_outside(&self, period: u32) -> bool
        ensures { result ≡ nat_le period self.now.time }
    {
        period <= self.time
    }
}

impl Record<2> for PeriodicTime {
    ghost Fits = { AreSmall };

    ghost of_cells = { periodic_time };

    fn read(table: &Table<2>, index: usize) -> PeriodicTime {
        PeriodicTime {
            event: number(table, index, 0),
            time: number(table, index, 1),
        }
    }
}

impl WrittenRecord<2> for PeriodicTime {
    ghost cells_of = { periodic_time_cells };

    fn cells(&self) -> [i64; 2] {
        [i64::from(self.event), i64::from(self.time)]
    }
}
