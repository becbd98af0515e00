// A row of a file of the costs of lines.
ghost use Rattle.std.specs.Prelude.{◌≡◌, ⊤};
ghost use Rattle.line_walks.specs.PoolCosts.{cost_row_of};

use tables::{Record, Table};

/// A line with its length and its cost, each in millionths.
#[derive(Clone, Copy)]
pub struct CostRow {
    pub line: i64,
    pub length: i64,
    pub cost: i64,
}

impl Record<3> for CostRow {
    ghost Fits = { λ _. ⊤ };

    ghost of_cells = { cost_row_of };

    fn read(table: &Table<3>, index: usize) -> CostRow {
        CostRow {
            line: table.cell(index, 0),
            length: table.cell(index, 1),
            cost: table.cell(index, 2),
        }
    }
}
