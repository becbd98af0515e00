// What a column of a table holds.
use crate::words::WordTable;

/// What a column of a table holds.
#[derive(Clone, Copy, Debug, PartialEq, Eq)]
pub enum ColumnKind {
    /// A whole number in a range.
    Whole { min: i64, max: i64 },
    /// A number with a fraction, in a range of millionths.
    Fixed { min: i64, max: i64 },
    /// A word, whose cell is its place from 0.
    Word { words: WordTable },
    /// Anything. Its cell is 0.
    Skip,
}
