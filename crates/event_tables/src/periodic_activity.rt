// Rows of periodic activities.
ghost use Rattle.std.specs.Prelude.{◌≡◌, nat_lt};
ghost use Rattle.event_tables.specs.Cells.{periodic_activity, periodic_activity_cells, AreSmall};

use crate::cells::number;
use crate::periodic_kind::PeriodicKind;
use crate::written_record::WrittenRecord;
use tables::{Record, Table};

/// A periodic activity: its id, its kind, the ids of its two events, and its bounds in minutes.
#[derive(Clone, Copy, Debug, PartialEq, Eq)]
pub struct PeriodicActivity {
    pub id: u32,
    pub kind: PeriodicKind,
    pub from: u32,
    pub to: u32,
    pub lower: u32,
    pub upper: u32,
}

impl PeriodicActivity {
    /// Whether the upper bound is below the lower one.
    pub(crate) fn has_crossed_bounds(&self) -> bool
        ensures { result ≡ nat_lt self.now.upper self.now.lower }
    {
        self.upper < self.lower
    }
}

impl Record<6> for PeriodicActivity {
    ghost Fits = { AreSmall };

    ghost of_cells = { periodic_activity };

    fn read(table: &Table<6>, index: usize) -> PeriodicActivity {
        PeriodicActivity {
            id: number(table, index, 0),
            kind: PeriodicKind::at(number(table, index, 1)),
            from: number(table, index, 2),
            to: number(table, index, 3),
            lower: number(table, index, 4),
            upper: number(table, index, 5),
        }
    }
}

impl WrittenRecord<6> for PeriodicActivity {
    ghost cells_of = { periodic_activity_cells };

    fn cells(&self) -> [i64; 6] {
        [
            i64::from(self.id),
            i64::from(self.kind.place()),
            i64::from(self.from),
            i64::from(self.to),
            i64::from(self.lower),
            i64::from(self.upper),
        ]
    }
}
