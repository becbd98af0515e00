// The best choice so far.

/// A choice: the changes that it drops, and what it costs in minutes.
#[derive(Drop)]
pub(crate) struct Best {
    pub(crate) dropped: Vec<usize>,
    pub(crate) cost: i128,
}
