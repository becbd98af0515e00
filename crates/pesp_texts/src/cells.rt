// The rows of a text, and the numbers in a row.
ghost use Rattle.std.specs.Prelude.{◌≡◌, ◌<◌, [], Some, IfOk, length, slice_index_or};
ghost use Rattle.plan_num.specs.Number.{whole_of};
ghost use Rattle.text_fields.specs.Rows.{rows};

use crate::fault::{TextRule, TextStop};
use plan_num::parse_whole;
use std::alloc::Global;
use text_fields::{TextRow, TextRows};

/// All rows of a text.
pub(crate) fn rows_of<'a>(alloc: Global, text: &'a [u8]) -> Result<TextRows<'a>, TextStop>
    ensures { IfOk result (λ left. left ≡ rows text.now) }
{
    match TextRows::new(alloc, text) {
        Some(rows) => Ok(rows),
        None => Err(TextStop::at(1, TextRule::ByteOrderMark)),
    }
}

/// The whole number that a field of a row spells.
pub(crate) fn number_at(row: &TextRow<'_>, index: usize) -> Result<i64, TextRule>
    requires { index < length row.now.fields }
    ensures { IfOk result (λ number.
        whole_of (slice_index_or row.now.fields index []) ≡ Some number) }
{
    match parse_whole(row.field(index)) {
        Some(number) => Ok(number),
        None => Err(TextRule::NotWhole),
    }
}
