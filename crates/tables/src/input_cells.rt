// Reading the cells of an input of a stage.
ghost use Rattle.std.specs.Prelude.{◌≡◌, ◌<◌, ◌^◌, All, IfOk};
ghost use Rattle.tables.specs.Inputs.{cell_faults, UnlessFault};
ghost use Rattle.tables.specs.Reading.{table_of};
ghost use Rattle.tables.specs.Writing.{InColumns};

use crate::column::ColumnKind;
use crate::file_id::FileId;
use crate::input::read_input;
use crate::refusal::StageFault;
use crate::table::Table;
use std::alloc::Global;

/// Reads the text of an input as a table whose cells are in the ranges of their columns, or refuses
/// it by its first cell that is at fault.
pub fn read_cells<const C: usize>(
    alloc: Global,
    file: FileId,
    text: &[u8],
    kinds: &[ColumnKind; C],
) -> Result<Table<C>, StageFault>
    requires { C < 2 ^ 32 }
    ensures table { UnlessFault (cell_faults file kinds.now text.now)
        (λ table. table ≡ table_of kinds.now text.now) result }
    ensures cells { IfOk result (All (λ row. InColumns kinds.now row.cells)) }
{
    read_input(alloc, file, text, kinds)
}
