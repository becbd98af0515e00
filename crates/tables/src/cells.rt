// Cells of a table, as fields spell them.
ghost use Rattle.std.specs.Prelude.{◌≡◌, position};
ghost use Rattle.std.specs.Str.{bytes_eq};
ghost use Rattle.tables.specs.Names.{table_words};
ghost use Rattle.tables.specs.Reading.{cell_of, in_range, place_of};

use crate::column::ColumnKind;
use crate::row_why::RowWhy;
use crate::words::WordTable;
use plan_num::{parse_fixed, parse_whole};

// The number, where it lies in the range.
fn in_range(min: i64, max: i64, column: u32, number: Option<i64>) -> Result<i64, RowWhy>
    ensures { result ≡ in_range min max column number }
{
    match number {
        None => Err(RowWhy::NotNumber { column }),
        Some(number) if min <= number && number <= max => Ok(number),
        Some(_) => Err(RowWhy::OutOfRange { column }),
    }
}

/// The place of a word in a table.
pub(crate) fn place_of(words: WordTable, field: &[u8]) -> Option<usize>
    ensures { result ≡ place_of (table_words words) field.now }
{
    place_among(words.words(), field)
}

/// The place of a word among words.
pub fn place_among(words: &[&str], field: &[u8]) -> Option<usize>
    ensures { result ≡ position (λ word. bytes_eq word.now field.now) words.now }
{
    words.iter().position(|word| is_same(word, field))
}

/// Whether the bytes are those of the word.
pub fn is_same(word: &str, field: &[u8]) -> bool
    ensures { result ≡ bytes_eq word.now field.now }
{
    word.as_bytes() == field
}

/// The cell that a field makes in a column, which counts from 1.
#[tactic(auto, unfolding(crate::specs::Reading::cell_of))]
pub(crate) fn cell_of(kind: ColumnKind, column: u32, field: &[u8]) -> Result<i64, RowWhy>
    ensures { result ≡ cell_of kind column field.now }
{
    match kind {
        ColumnKind::Whole { min, max } => in_range(min, max, column, parse_whole(field)),
        ColumnKind::Fixed { min, max } => {
            let number = parse_fixed(field).map(|fixed| fixed.millionths());
            in_range(min, max, column, number)
        }
        ColumnKind::Word { words } => match place_of(words, field) {
            Some(place) => Ok(place as i64),
            None => Err(RowWhy::UnknownWord { column }),
        },
        ColumnKind::Skip => Ok(0),
    }
}
