// The numbers of rows.
ghost use Rattle.std.specs.Prelude.{◌≡◌, Some, IfOk, OnOk, slice_get};
ghost use Rattle.text_fields.specs.Rows.{rows};
ghost use Rattle.pesp_texts.specs.Texts.{IsNumberOf};

use crate::cells::rows_of;
use crate::fault::TextStop;
use std::alloc::Global;
use text_fields::{TextRow, TextRows};

/// The number of the row at an index among all rows of a text, or 0 where there are fewer.
pub fn row_number(alloc: Global, text: &[u8], index: usize) -> Result<u64, TextStop>
    ensures { IfOk result (IsNumberOf (rows text.now) index) }
{
    let mut rows = rows_of(alloc, text)?;
    number_at(alloc, &mut rows, index)
}

// The number of the row at an index among all that are left.
fn number_at<'a>(alloc: Global, rows: &mut TextRows<'a>, index: usize) -> Result<u64, TextStop>
    ensures { IfOk result (IsNumberOf rows.old index) }
{
    let mut row = TextRow::new(alloc);
    for _passed in 0..index {
        if !rows.next_row(&mut row)? {
            return Ok(0);
        }
    }
    if rows.next_row(&mut row)? {
        Ok(row.number())
    } else {
        Ok(0)
    }
}
