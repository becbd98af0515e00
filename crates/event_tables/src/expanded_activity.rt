// Rows of expanded activities.
ghost use Rattle.std.specs.Prelude.{◌≡◌, nat_lt};
ghost use Rattle.event_tables.specs.Cells.{expanded_activity, expanded_activity_cells, AreSmall};

use crate::activity_kind::ActivityKind;
use crate::cells::number;
use crate::written_record::WrittenRecord;
use std::mem::size_of;
use tables::{Record, Table};

/// An activity of a day: its id, the id of its periodic activity, its kind, the ids of its two
/// events, and its bounds in minutes.
#[derive(Clone, Copy, Debug, PartialEq, Eq)]
pub struct ExpandedActivity {
    pub id: u32,
    pub periodic: u32,
    pub kind: ActivityKind,
    pub from: u32,
    pub to: u32,
    pub lower: u32,
    pub upper: u32,
}

// A day has up to 500,000 of them.
const _: () = prove!(size_of::<ExpandedActivity>() <= 48);

impl ExpandedActivity {
    /// Whether the upper bound is below the lower one.
    pub(crate) fn has_crossed_bounds(&self) -> bool
        ensures { result ≡ nat_lt self.now.upper self.now.lower }
    {
        self.upper < self.lower
    }
}

impl Record<7> for ExpandedActivity {
    ghost Fits = { AreSmall };

    ghost of_cells = { expanded_activity };

    fn read(table: &Table<7>, index: usize) -> ExpandedActivity {
        ExpandedActivity {
            id: number(table, index, 0),
            periodic: number(table, index, 1),
            kind: ActivityKind::at(number(table, index, 2)),
            from: number(table, index, 3),
            to: number(table, index, 4),
            lower: number(table, index, 5),
            upper: number(table, index, 6),
        }
    }
}

impl WrittenRecord<7> for ExpandedActivity {
    ghost cells_of = { expanded_activity_cells };

    fn cells(&self) -> [i64; 7] {
        [
            i64::from(self.id),
            i64::from(self.periodic),
            i64::from(self.kind.place()),
            i64::from(self.from),
            i64::from(self.to),
            i64::from(self.lower),
            i64::from(self.upper),
        ]
    }
}
