// Rows of the files that the statistic alone reads so.
ghost use Rattle.std.specs.Prelude.{◌≡◌, ◌<◌, ⊤, length, slice_index_or};
ghost use Rattle.tables.specs.Tables.{no_row};
ghost use Rattle.evaluators.specs.StatisticInputs.{cost_row, line_row};

use tables::{Record, Table};

/// The cost of a line in millionths.
#[derive(Clone, Copy, Debug, PartialEq, Eq)]
pub struct CostRow {
    pub line: i64,
    pub cost: u64,
}

/// How often a line runs in a period, as a row of the line concept has it.
#[derive(Clone, Copy, Debug, PartialEq, Eq)]
pub struct LineRow {
    pub line: i64,
    pub frequency: u64,
}

impl Record<3> for CostRow {
    ghost Fits = { λ _. ⊤ };

    ghost of_cells = { cost_row };

    fn read(table: &Table<3>, index: usize) -> CostRow {
        CostRow {
            line: table.cell(index, 0),
            cost: table.cell(index, 2).unsigned_abs(),
        }
    }
}

impl LineRow {
    // The row of a table at an index.
    pub(crate) fn read(table: &Table<4>, index: usize) -> LineRow
        requires { index < length table.now }
        ensures { result ≡ line_row (slice_index_or table.now index no_row).cells }
    {
        LineRow {
            line: table.cell(index, 0),
            frequency: table.cell(index, 3).unsigned_abs(),
        }
    }
}
