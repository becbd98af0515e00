//! Branch and bound over regions of any kind: the search of a solution of least cost within a
//! budget of entries, and the tree of nodes that proves it best. After Land and Doig, An automatic
//! method of solving discrete programming problems (1960).
#![tactic(auto)]

mod branching;
mod finding;
mod found;
mod tree;

pub use branching::Branching;
pub use finding::find_best;
pub use found::Found;
pub use tree::Tree;
