// Reading a text as a table.
ghost use Rattle.std.specs.Prelude.{◌<◌, ◌^◌};
ghost use Rattle.tables.specs.Reading.{faults, table_of, ReadGives, RowsGive};

use crate::column::ColumnKind;
use crate::read_fault::{ReadFault, RowFault};
use crate::row_why::RowWhy;
use crate::table::Table;
use std::alloc::Global;
use text_fields::{TextRow, TextRows};

/// All rows of a text. The one fault is a byte order mark, which is refused as row 1.
pub fn rows_of<'a>(alloc: Global, text: &'a [u8]) -> Result<TextRows<'a>, RowFault>
    ensures { RowsGive text.now result }
{
    match TextRows::new(alloc, text) {
        Some(rows) => Ok(rows),
        None => Err(RowFault {
            row: 1,
            why: RowWhy::ByteOrderMark,
        }),
    }
}

/// Reads a text as a table whose columns hold what `kinds` says. A fault is the first of the text:
/// rows in order, and in a row its number of fields and then its columns from the left.
pub fn read_table<const C: usize>(
    alloc: Global,
    bytes: &[u8],
    kinds: &[ColumnKind; C],
) -> Result<Table<C>, ReadFault>
    requires { C < 2 ^ 32 }
    ensures { ReadGives (faults kinds.now bytes.now) (table_of kinds.now bytes.now) result }
{
    let mut rows = rows_of(alloc, bytes)?;
    let mut row = TextRow::new(alloc);
    let mut table = Table::new(alloc);
    'rows: while rows.next_row(&mut row)? {
        table.read_row(&row, kinds)?;
    }
    Ok(table)
}
