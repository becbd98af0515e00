// Rows of given loads.
ghost use Rattle.std.specs.Prelude.{◌≡◌, ◌<◌, int_lt, length, slice_index_or};
ghost use Rattle.tables.specs.Tables.{no_row};
ghost use Rattle.ptn_network.specs.Loads.{load_row_of};

use crate::edge_load::EdgeLoad;
use tables::Table;

/// The load of the edge of an id.
#[derive(Clone, Copy)]
pub(crate) struct LoadRow {
    pub edge: i64,
    pub load: EdgeLoad,
}

impl LoadRow {
    /// What the row at an index of a table stands for.
    pub(crate) fn read(table: &Table<4>, index: usize) -> LoadRow
        requires { index < length table.now }
        ensures { result ≡ load_row_of (slice_index_or table.now index no_row).cells }
    {
        LoadRow {
            edge: table.cell(index, 0),
            load: EdgeLoad {
                load: table.cell(index, 1),
                least: table.cell(index, 2),
                most: table.cell(index, 3),
            },
        }
    }

    /// Whether the maximal frequency is below the minimal one.
    pub(crate) fn has_crossed_bounds(&self) -> bool
        ensures { result ≡ int_lt self.now.load.most self.now.load.least }
    {
        self.load.most < self.load.least
    }
}
