// A waiting decision with its mark.
use crate::kept::Kept;
use crate::node::WaitTree;

/// A waiting decision: which changes are kept, what that costs in minutes, and, where it is marked,
/// the tree that proves that no decision costs less.
#[derive(Debug, Drop)]
pub struct Waits {
    pub kept: Kept,
    pub cost: i128,
    pub tree: Option<WaitTree>,
}
