// Rows of a disposition timetable.
ghost use Rattle.std.specs.Prelude.{◌≡◌};
ghost use Rattle.tables.specs.Columns.{disposed_columns};
ghost use Rattle.tables.specs.Writing.{InColumns};
ghost use Rattle.event_tables.specs.Cells.{disposed_time, disposed_time_cells};

use crate::written_record::WrittenRecord;
use tables::{Record, Table};

/// The disposed time of an event of a day, in minutes.
#[derive(Clone, Copy, Debug, PartialEq, Eq)]
pub struct DisposedTime {
    pub event: u32,
    pub time: u64,
}

impl Record<2> for DisposedTime {
    ghost Fits = { InColumns disposed_columns };

    ghost of_cells = { disposed_time };

    fn read(table: &Table<2>, index: usize) -> DisposedTime {
        DisposedTime {
            event: table.cell(index, 0) as u32,
            time: table.cell(index, 1) as u64,
        }
    }
}

impl WrittenRecord<2> for DisposedTime {
    ghost cells_of = { disposed_time_cells };

    fn cells(&self) -> [i64; 2] {
        [i64::from(self.event), self.time as i64]
    }
}
