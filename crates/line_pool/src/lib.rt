//! The stage of line costs: what each line of a pool costs.
#![tactic(auto)]

mod cost_table;
mod stage;

pub use line_walks::{LineCosts, Pool};
pub use stage::make_cost;
