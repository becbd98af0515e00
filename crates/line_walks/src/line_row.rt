// A row of a file of lines.
ghost use Rattle.std.specs.Prelude.{◌≡◌, ◌<◌, ◌≤◌, length, slice_index_or};
ghost use Rattle.tables.specs.Tables.{no_row, cell_at};
ghost use Rattle.line_walks.specs.Pools.{line_row};

use tables::Table;

/// A row of a file of lines: a line, a place in it from 1, the id of the edge there, and the
/// frequency of the line, which is 0 in a pool.
#[derive(Clone, Copy)]
pub(crate) struct LineRow {
    pub line: i64,
    pub order: i64,
    pub edge: i64,
    pub frequency: i64,
}

impl LineRow {
    /// What the row at an index of a table stands for.
    pub(crate) fn read<const C: usize>(table: &Table<C>, index: usize) -> LineRow
        requires index { index < length table.now }
        requires wide { 3 ≤ C }
        ensures { result ≡ line_row (slice_index_or table.now index no_row).cells }
    {
        LineRow {
            line: table.cell(index, 0),
            order: table.cell(index, 1),
            edge: table.cell(index, 2),
            frequency: cell_or_zero(table, index, 3),
        }
    }
}

// The cell of a row in a column, or 0 where the table has no such column.
fn cell_or_zero<const C: usize>(table: &Table<C>, row: usize, column: usize) -> i64
    requires { row < length table.now }
    ensures { result ≡ cell_at table.now row column }
{
    match table.row(row).get(column) {
        Some(cell) => *cell,
        None => 0,
    }
}
