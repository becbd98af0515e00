// Rows of the text of a waiting decision.

/// What a row says: the cost, of the change of an id that it is kept or dropped, a split by the change
/// of an id, or a leaf; or none of these.
#[derive(Clone, Copy)]
pub(crate) enum WaitRow {
    Cost { cost: u64 },
    Keep { id: u64 },
    Drop { id: u64 },
    Split { id: u64 },
    Leaf,
    Stray,
}
