// What rows of a table stand for.
ghost use Rattle.std.specs.Prelude.{ℤ, ◌≡◌, ◌<◌, List, length, slice_index_or};
ghost use Rattle.tables.specs.Tables.{no_row};

use crate::table::Table;

/// What a row of a table stands for, where its cells fit.
pub trait Record<const C: usize>: Copy + Drop {
    ghost Fits: { List ℤ → Type 0 };

    ghost of_cells: { List ℤ → Self };

    /// What the row at an index stands for.
    fn read(table: &Table<C>, index: usize) -> Self
        requires row_in { index < length table.now }
        requires fits { Fits (slice_index_or table.now index no_row).cells }
        ensures { result ≡ of_cells (slice_index_or table.now index no_row).cells };
}
