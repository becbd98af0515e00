//! Waiting decisions: which changes a day with delays is to keep, so that the delay of all arrivals
//! and a penalty for each change that is dropped are least together, read from the files of a
//! bundle, written as a text, and judged as a text from any hand.
#![tactic(auto)]

mod check;
mod choose;
mod columns;
mod ids;
mod judge;
mod print;
mod row;
mod rows;
mod rule;
mod shape;
mod text;

pub use check::check_waits;
pub use choose::choose_waits;
pub use print::print_waits;
pub use rule::WaitRule;
pub use waiting_decisions::{Kept, WaitNode, WaitTree, Waits};
