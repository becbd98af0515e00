// Rows of delays.
ghost use Rattle.std.specs.Prelude.{◌≡◌};
ghost use Rattle.event_tables.specs.Cells.{delay_row, delay_cells, AreSmall};

use crate::cells::number;
use crate::written_record::WrittenRecord;
use tables::{Record, Table};

/// How much later an event or an activity of a day is, in minutes.
#[derive(Clone, Copy, Debug, PartialEq, Eq)]
pub struct DelayRow {
    pub id: u32,
    pub delay: u32,
}

impl Record<2> for DelayRow {
    ghost Fits = { AreSmall };

    ghost of_cells = { delay_row };

    fn read(table: &Table<2>, index: usize) -> DelayRow {
        DelayRow {
            id: number(table, index, 0),
            delay: number(table, index, 1),
        }
    }
}

impl WrittenRecord<2> for DelayRow {
    ghost cells_of = { delay_cells };

    fn cells(&self) -> [i64; 2] {
        [i64::from(self.id), i64::from(self.delay)]
    }
}
