//! Pools of lines, each a shortest path between two of some terminals.
#![tactic(auto)]

mod make;
mod terminals;
mod text;

pub use make::make_pool;
pub use terminals::are_terminals;
