// Ids that are the places of rows, from 1.
ghost use Rattle.std.specs.Prelude.{◌≡◌, ◌+◌, ◌==◌, ◌||◌};
ghost use Rattle.std.specs.List.{range_with_len};
ghost use Rattle.event_tables.specs.Places.{is_none_of};

/// Whether an id is the place that comes next after so many rows.
pub(crate) fn is_next_place(id: u32, before: usize) -> bool
    ensures { result ≡ (id == before + 1) }
{
    before < u32::MAX as usize && id as usize == before + 1
}

/// Whether an id is none of so many, which count from 1.
#[tactic(auto, using(crate::proofs::Numbering::none_of_places))]
pub(crate) fn is_unknown(id: u32, count: usize) -> bool
    ensures { result ≡ is_none_of (range_with_len 1 count) id }
{
    id == 0 || id as usize > count
}

/// Whether one of two ids is none of so many, which count from 1.
pub(crate) fn is_either_unknown(id: u32, other: u32, count: usize) -> bool
    ensures { result
        ≡ (is_none_of (range_with_len 1 count) id || is_none_of (range_with_len 1 count) other) }
{
    is_unknown(id, count) || is_unknown(other, count)
}
