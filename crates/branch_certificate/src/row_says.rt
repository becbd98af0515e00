// What a row of a tree says.
use line_concepts::Node;

/// What a row of the file of a tree says.
#[derive(Drop)]
pub(crate) enum RowSays {
    /// A node that has no further rows.
    Whole(Node),
    /// A bound, with rows of so many multipliers behind it.
    Bound { count: u64 },
    /// A multiplier of the edge of an index.
    Multiplier { edge: usize, millionths: i64 },
}
