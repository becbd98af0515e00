//! Small line problems that tests try.
#![tactic(auto)]

mod problems;

pub use problems::{no_line, one_edge, other_ids, two_edges};
