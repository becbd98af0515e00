// Rows of demand.
ghost use Rattle.std.specs.Prelude.{◌≡◌, ◌<◌, pos, int_lt, length, slice_index_or};
ghost use Rattle.tables.specs.Tables.{no_row};
ghost use Rattle.demand_load.specs.Demand.{demand_row};

use tables::Table;

/// Customers, in millionths, who go from the stop of one id to that of another.
#[derive(Clone, Copy)]
pub(crate) struct DemandRow {
    pub left: i64,
    pub right: i64,
    pub customers: i64,
}

impl DemandRow {
    /// What the row at an index of a table stands for.
    pub(crate) fn read(table: &Table<3>, index: usize) -> DemandRow
        requires { index < length table.now }
        ensures { result ≡ demand_row (slice_index_or table.now index no_row).cells }
    {
        DemandRow {
            left: table.cell(index, 0),
            right: table.cell(index, 1),
            customers: table.cell(index, 2),
        }
    }

    /// Whether anyone goes.
    pub(crate) fn has_customers(&self) -> bool
        ensures { result ≡ int_lt (pos 0) self.now.customers }
    {
        self.customers > 0
    }
}
