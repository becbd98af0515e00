// What the value of a key may be.
ghost use Rattle.std.specs.Prelude.{◌≡◌};
ghost use Rattle.giv_files.specs.KeyKinds.{least, greatest, wait_of, spelled_as};

use crate::key_words::KeyWords;
use plan_num::{parse_fixed, parse_whole};
use tables::is_same;

/// What the value of a key may be.
#[derive(Clone, Copy, Debug, PartialEq, Eq)]
pub enum KeyKind {
    /// A whole number in a range.
    Whole { min: i64, max: i64 },
    /// A number with a fraction, in a range of millionths.
    Fixed { min: i64, max: i64 },
    /// A word, by its place from 0.
    Word { words: KeyWords },
    /// A whole number from 0 on, or -1 for `all`, or -2 for `none`.
    Wait { max: i64 },
}

impl KeyKind {
    /// The least value.
    pub(crate) fn least(self) -> i64
        ensures { result ≡ least self }
    {
        match self {
            KeyKind::Whole { min, max: _ } | KeyKind::Fixed { min, max: _ } => min,
            KeyKind::Word { words: _ } => 0,
            KeyKind::Wait { max: _ } => -2,
        }
    }

    /// The greatest value.
    pub(crate) fn greatest(self) -> i64
        ensures { result ≡ greatest self }
    {
        match self {
            KeyKind::Whole { min: _, max } | KeyKind::Fixed { min: _, max } => max,
            KeyKind::Word { words } => words.count() as i64 - 1,
            KeyKind::Wait { max } => max,
        }
    }

    /// The value that a field spells, apart from the range: a fixed number in millionths, a word by
    /// its place, `all` as -1 and `none` as -2.
    pub fn spelled_as(self, field: &[u8]) -> Option<i64>
        ensures { result ≡ spelled_as self field.now }
    {
        match self {
            KeyKind::Whole { min: _, max: _ } => parse_whole(field),
            KeyKind::Fixed { min: _, max: _ } => {
                let fixed = parse_fixed(field)?;
                Some(fixed.millionths())
            }
            KeyKind::Word { words } => {
                let place = words.place_of(field)?;
                Some(place as i64)
            }
            KeyKind::Wait { max: _ } => wait_of(field),
        }
    }
}

// How long a field says that a change waits.
fn wait_of(field: &[u8]) -> Option<i64>
    ensures { result ≡ wait_of field.now }
{
    if is_same("all", field) {
        Some(-1)
    } else if is_same("none", field) {
        Some(-2)
    } else {
        let wait = parse_whole(field)?;
        if wait < 0 { None } else { Some(wait) }
    }
}
