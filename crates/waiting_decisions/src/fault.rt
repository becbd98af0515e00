// What a tree from any hand breaks.

/// What nodes break as the proof that no waiting decision costs less than so much.
#[derive(Clone, Copy, Debug, PartialEq, Eq)]
pub enum TreeFault {
    /// They are no whole tree whose splits each decide a change that is free there.
    NotWhole,
    /// The bound of a leaf is below the cost.
    LowLeaf,
}
