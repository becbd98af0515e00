// Reading records with their rules.
ghost use Rattle.std.specs.Prelude.{ℤ, ◌≡◌, ◌<◌, ◌^◌, List, [], All};
ghost use Rattle.tables.specs.Inputs.{row_faults, UnlessFault};
ghost use Rattle.tables.specs.RowsOfTables.{ReadsFile, numbered_by, records_by, plain_input};
ghost use Rattle.tables.specs.Writing.{InColumns};

use crate::column::ColumnKind;
use crate::file_id::FileId;
use crate::folds::{fold_file, fold_rows};
use crate::record::Record;
use crate::refusal::StageFault;
use crate::row_fold::RowFold;
use crate::row_limit::RowLimit;
use crate::row_tests::RowTests;
use crate::row_why::RowWhy;
use crate::table::Table;
use plan_num::NoMemory;
use std::alloc::Global;

/// Reads the text of a file whose rows have rules as what its rows stand for, or refuses it by its
/// first fault.
pub fn read_file<const C: usize, X: Record<C>, T: RowTests<X>>(
    alloc: Global,
    file: FileId,
    text: &[u8],
    kinds: &[ColumnKind; C],
    limit: Option<RowLimit>,
    tests: T,
) -> Result<Vec<X>, StageFault>
    requires narrow { C < 2 ^ 32 }
    requires fits { (cells : List ℤ) → InColumns kinds.now cells → X.Fits cells }
    requires knows { T.Knows tests [] }
    ensures { ReadsFile (plain_input file kinds.now X.of_cells limit (T.rules tests)) text.now result }
{
    let first = Tested {
        rows: Vec::new(alloc),
        tests,
    };
    let Tested { rows, .. } = fold_file(alloc, file, text, kinds, limit, &EachRow, first)?;
    Ok(rows)
}

/// What the rows of a table stand for, or the first rule that a row breaks.
pub fn read_records<const C: usize, X: Record<C>, T: RowTests<X>>(
    alloc: Global,
    file: FileId,
    table: &Table<C>,
    mut tests: T,
) -> Result<Vec<X>, StageFault>
    requires fits { All (λ row. X.Fits row.cells) table.now }
    requires knows { T.Knows tests [] }
    ensures { UnlessFault (row_faults file (T.rules tests) [] (numbered_by X.of_cells table.now))
        (λ rows. rows.items ≡ records_by X.of_cells table.now) result }
{
    let first = Tested {
        rows: Vec::new(alloc),
        tests,
    };
    let Tested { rows, .. } = fold_rows(file, table, &EachRow, first)?;
    Ok(rows)
}

// Rows that met their tests.
#[derive(Drop)]
struct Tested<X, T> {
    rows: Vec<X>,
    tests: T,
}

// The fold that keeps each row.
struct EachRow;

impl<const C: usize, X: Record<C>, T: RowTests<X>> RowFold<C, X, Tested<X, T>> for EachRow {
    ghost of_cells = { X.of_cells };

    ghost rules = { λ _ tested. T.rules tested.tests };

    ghost Fits = { λ _. All (λ row. X.Fits row.cells) };

    ghost Knows = { λ _ tested rows. (T.Knows tested.tests rows) × (tested.rows.items ≡ rows) };

    fn take_row(
        &self,
        made: &mut Tested<X, T>,
        table: &Table<C>,
        index: usize,
    ) -> Result<Option<RowWhy>, NoMemory> {
        let row = X::read(table, index);
        let why = made.tests.test(&made.rows, &row)?;
        if why.is_none() {
            made.rows.push(row)?;
        }
        Ok(why)
    }
}
