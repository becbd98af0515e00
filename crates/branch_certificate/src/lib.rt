//! The texts of trees that certify what a line concept costs at least: reading, writing and copying
//! them. The trees themselves and their judge are those of `line_concepts`, and are given on.
#![tactic(auto)]

mod copy;
mod open_bound;
mod problem_ids;
mod read;
mod read_fault;
mod read_so_far;
mod row_says;
mod tree_row;
mod write;

pub use copy::copy_tree;
pub use line_concepts::{Node, RegionWalk, Tree, TreeFault, check_tree, go_on};
pub use read::read_tree;
pub use read_fault::TreeReadFault;
pub use write::write_tree;
