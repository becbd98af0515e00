//! Line concepts of least cost: their search by branch and bound over ranges of frequencies, and
//! the trees that it leaves, which certify that no concept costs less, with their judge. After Land
//! and Doig, An automatic method of solving discrete programming problems (1960), and Claessens,
//! van Dijk and Zwaneveld, Cost optimal allocation of rail passenger lines (1998).
#![tactic(auto)]

mod best;
mod check;
mod check_nodes;
mod check_shape;
mod fault;
mod first_faults;
mod first_open;
mod node;
mod region_node;
mod region_walk;
mod search;
mod tree;

pub use best::BestConcept;
pub use check::check_tree;
pub use fault::TreeFault;
pub use node::Node;
pub use region_walk::{RegionWalk, go_on};
pub use search::{Searched, search_concept};
pub use tree::Tree;
