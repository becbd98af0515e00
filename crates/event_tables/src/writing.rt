// Writing records as the text of a table.
ghost use Rattle.std.specs.Prelude.{ℤ, ◌≡◌, ◌<◌, ◌^◌, List, All, IfOk};
ghost use Rattle.tables.specs.Writing.{CanWrite, InColumns, IsHeader};
ghost use Rattle.tables.specs.RowsOfTables.{ReadsAs, file_text};

use crate::written_record::WrittenRecord;
use plan_num::{NoMemory, Text};
use std::alloc::Global;
use tables::{ColumnKind, Table, write_table};

/// The text of a file with a row for each record. It is read back to the same records.
pub(crate) fn write_records<const C: usize, X: WrittenRecord<C>>(
    alloc: Global,
    header: &[u8],
    kinds: &[ColumnKind; C],
    rows: &[X],
) -> Result<Text, NoMemory>
    requires some { 0 < C }
    requires narrow { C < 2 ^ 32 }
    requires kinds { All CanWrite kinds.now }
    requires header { IsHeader header.now }
    requires fits { (cells : List ℤ) → InColumns kinds.now cells → X.Fits cells }
    requires cells { All (λ row. InColumns kinds.now (X.cells_of row)) rows.now }
    requires back { (row : X) → X.of_cells (X.cells_of row) ≡ row }
    ensures text { IfOk result (λ text. text ≡ file_text header.now kinds.now X.cells_of rows.now) }
    ensures back { IfOk result (ReadsAs kinds.now X.of_cells rows.now) }
{
    let mut table = Table::new(alloc);
    for row in rows {
        table.push(0, &row.cells())?;
    }
    write_table(alloc, header, &table, kinds)
}
