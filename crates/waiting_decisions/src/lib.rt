//! Waiting decisions: which changes a day with delays is to keep, so that the delay of all arrivals
//! and a penalty for each change that is dropped are least together; and the judge of the tree that
//! proves such a decision best. It knows of no file.
#![tactic(auto)]

mod best;
mod cost;
mod decision;
mod fault;
mod judge;
mod kept;
mod next_entry;
mod node;
mod path;
mod search;
mod waits;
mod walk;

pub use cost::{MOST_COST, cost_of};
pub use fault::TreeFault;
pub use judge::judge_nodes;
pub use kept::Kept;
pub use node::{WaitNode, WaitTree};
pub use search::search_waits;
pub use waits::Waits;
