// Folds over the rows of a table.
ghost use Rattle.std.specs.Prelude.{◌≡◌, ◌<◌, ◌^◌, ◌≤◌, List, [], length, All, IfSome};
ghost use Rattle.tables.specs.Inputs.{records_of, input_faults, row_faults, UnlessFault};
ghost use Rattle.tables.specs.RowsOfTables.{numbered_by, records_by, plain_input};
ghost use Rattle.tables.specs.Tables.{TableRow};
ghost use Rattle.tables.specs.Writing.{InColumns};

use crate::column::ColumnKind;
use crate::file_id::FileId;
use crate::input_cells::read_cells;
use crate::refusal::{Refusal, StageFault};
use crate::row_fold::RowFold;
use crate::row_limit::{RowLimit, too_many};
use crate::table::Table;
use std::alloc::Global;

/// What a fold makes of the rows of the text of a file, or the first fault of the text.
pub fn fold_file<const C: usize, X, S: Drop, F: RowFold<C, X, S>>(
    alloc: Global,
    file: FileId,
    text: &[u8],
    kinds: &[ColumnKind; C],
    limit: Option<RowLimit>,
    fold: &F,
    first: S,
) -> Result<S, StageFault>
    requires narrow { C < 2 ^ 32 }
    requires fits { (table : List TableRow) → All (λ row. InColumns kinds.now row.cells) table
        → IfSome limit (λ limit. length table ≤ limit.most) → F.Fits fold.now table }
    requires knows { F.Knows fold.now first [] }
    ensures { UnlessFault
        (input_faults (plain_input file kinds.now F.of_cells limit (F.rules fold.now first)) text.now)
        (λ made. F.Knows fold.now made (records_of
        (plain_input file kinds.now F.of_cells limit (F.rules fold.now first)) text.now)) result }
{
    let table = read_cells(alloc, file, text, kinds)?;
    if let Some(refusal) = too_many(limit, table.len()) {
        return Err(StageFault::Refused(refusal));
    }
    fold_rows(file, &table, fold, first)
}

/// What a fold makes of the rows of a table, or the first rule that a row breaks.
pub fn fold_rows<const C: usize, X, S: Drop, F: RowFold<C, X, S>>(
    file: FileId,
    table: &Table<C>,
    fold: &F,
    first: S,
) -> Result<S, StageFault>
    requires fits { F.Fits fold.now table.now }
    requires knows { F.Knows fold.now first [] }
    ensures { UnlessFault
        (row_faults file (F.rules fold.now first) [] (numbered_by F.of_cells table.now))
        (λ made. F.Knows fold.now made (records_by F.of_cells table.now)) result }
{
    let mut made = first;
    for i in 0..table.len() {
        if let Some(why) = fold.take_row(&mut made, table, i)? {
            return Err(StageFault::Refused(Refusal::BadRow {
                file,
                row: table.number(i),
                why,
            }));
        }
    }
    Ok(made)
}
