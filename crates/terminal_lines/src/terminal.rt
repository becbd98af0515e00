// Terminals.

/// A terminal: the id of a stop, and its index.
#[derive(Clone, Copy)]
pub struct Terminal {
    pub id: i64,
    pub stop: usize,
}
