// How many rows a file may have.
ghost use Rattle.std.specs.Prelude.{◌≡◌, slice_get};
ghost use Rattle.tables.specs.RowsOfTables.{too_many_rows};

use crate::counted::Counted;
use crate::refusal::Refusal;

/// How many rows there may be, and as what they are counted.
#[derive(Clone, Copy)]
pub struct RowLimit {
    pub what: Counted,
    pub most: usize,
}

/// The refusal of so many rows, where they are too many.
pub fn too_many(limit: Option<RowLimit>, count: usize) -> Option<Refusal>
    ensures { result ≡ slice_get (too_many_rows limit count) 0 }
{
    let RowLimit { what, most } = limit?;
    let count_told = count as u64;
    (count > most).then_some(Refusal::TooMany {
        what,
        count: count_told,
    })
}
