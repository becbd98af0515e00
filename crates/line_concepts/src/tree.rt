// Trees.
use crate::node::Node;

/// The nodes of a tree in preorder. Contracts see it as their list.
pub type Tree = branch_and_bound::Tree<Node>;
