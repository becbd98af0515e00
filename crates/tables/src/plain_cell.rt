// Cells of fields that most fields are like: digits alone, or a word as its table has it.
ghost use Rattle.std.specs.Prelude.{◌≡◌, ◌≤ℤ◌, ℕ, IfSome, Ok, Some};
ghost use Rattle.tables.specs.Reading.{cell_of};
ghost use Rattle.text_fields.specs.Rows.{without_blanks, without_quotes};

use crate::cells::place_of;
use crate::column::ColumnKind;
use crate::digits::{plain_fixed, plain_whole};
use text_fields::behind_space;

/// The cell of a field that has not been trimmed yet. None does not say that it makes none.
#[inline(always)]
pub(crate) fn plain_cell(kind: &ColumnKind, piece: &[u8]) -> Option<i64>
    ensures { (column : ℕ) → IfSome result
        (λ cell. cell_of kind.now column (without_quotes (without_blanks piece.now)) ≡ Ok cell) }
{
    match *kind {
        ColumnKind::Whole { min, max } => within(min, max, plain_whole(piece)),
        ColumnKind::Fixed { min, max } => within(min, max, plain_fixed(piece)),
        ColumnKind::Word { words } => match place_of(words, behind_space(piece)) {
            Some(place) => Some(place as i64),
            None => None,
        },
        ColumnKind::Skip => Some(0),
    }
}

// A number, where it lies in the range.
fn within(min: i64, max: i64, number: Option<i64>) -> Option<i64>
    ensures same { IfSome result (λ cell. number ≡ Some cell) }
    ensures low { IfSome result (λ cell. min ≤ℤ cell) }
    ensures high { IfSome result (λ cell. cell ≤ℤ max) }
{
    match number {
        Some(number) if min <= number && number <= max => Some(number),
        _ => None,
    }
}
