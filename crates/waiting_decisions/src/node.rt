// Trees of waiting decisions.
use branch_and_bound::Tree;

/// A node of a tree of waiting decisions: it decides a change, told by its index, with the part that
/// keeps it first and the part that drops it behind; or it is a leaf.
#[derive(Clone, Copy, Debug, PartialEq, Eq)]
pub enum WaitNode {
    Split { change: usize },
    Leaf,
}

/// A tree of waiting decisions, as its nodes in preorder. Contracts see it as the list of these.
pub type WaitTree = Tree<WaitNode>;
