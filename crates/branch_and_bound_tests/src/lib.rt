//! Tests of branch and bound over the least of some numbers, which know of no file and no stage.
#![tactic(auto)]

mod least;
#[cfg(test)]
mod searched;

pub use least::Numbers;
