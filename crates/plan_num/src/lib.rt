//! Numbers, texts and a count of steps, for all crates of the planning chain.
#![tactic(auto)]

mod fixed;
mod memory;
mod number;
mod print;
mod steps;
mod text;

pub use fixed::Fixed;
pub use memory::NoMemory;
pub use number::{NUMBER_LIMIT, parse_fixed, parse_whole};
pub use print::print_fixed;
pub use steps::{Ledger, Silent, Steps, Tally};
pub use text::Text;
