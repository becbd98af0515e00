// Numbers in the cells of a table.
ghost use Rattle.std.specs.Prelude.{◌≡◌, ◌<◌, length, slice_index_or};
ghost use Rattle.tables.specs.Tables.{no_row};
ghost use Rattle.event_tables.specs.Cells.{number_in, AreSmall};

use tables::Table;

/// The number of a row of a table in a column, where no number of the row is great or below 0.
pub(crate) fn number<const C: usize>(table: &Table<C>, row: usize, column: usize) -> u32
    requires row_in { row < length table.now }
    requires column_in { column < C }
    requires small { AreSmall (slice_index_or table.now row no_row).cells }
    ensures { result ≡ number_in (slice_index_or table.now row no_row).cells column }
{
    table.cell(row, column) as u32
}
