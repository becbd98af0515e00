// Reading an input of a stage.
ghost use Rattle.std.specs.Prelude.{◌≡◌, ◌<◌, ◌^◌};
ghost use Rattle.tables.specs.Inputs.{cell_faults, UnlessFault};
ghost use Rattle.tables.specs.Reading.{table_of};

use crate::column::ColumnKind;
use crate::file_id::FileId;
use crate::read::read_table;
use crate::read_fault::ReadFault;
use crate::refusal::{Refusal, StageFault};
use crate::table::Table;
use std::alloc::Global;

/// Reads the text of an input as a table, or refuses it by its first cell that is at fault.
pub fn read_input<const C: usize>(
    alloc: Global,
    file: FileId,
    bytes: &[u8],
    kinds: &[ColumnKind; C],
) -> Result<Table<C>, StageFault>
    requires { C < 2 ^ 32 }
    ensures { UnlessFault (cell_faults file kinds.now bytes.now) (λ table. table ≡ table_of kinds.now bytes.now) result }
{
    match read_table(alloc, bytes, kinds) {
        Ok(table) => Ok(table),
        Err(ReadFault::NoMemory) => Err(StageFault::NoMemory),
        Err(ReadFault::Row(fault)) => Err(StageFault::Refused(Refusal::BadRow {
            file,
            row: fault.row,
            why: fault.why,
        })),
    }
}
