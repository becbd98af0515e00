// Loads of edges.

/// The load of an edge, which is customers in millionths, and the bounds of its frequency.
#[derive(Clone, Copy, Debug, PartialEq, Eq)]
pub struct EdgeLoad {
    pub load: i64,
    pub least: i64,
    pub most: i64,
}
