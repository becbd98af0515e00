//! Rows of bits, and marks of places, in words of 64.
#![tactic(auto)]

mod marking;
mod rows;
mod words;

pub use marking::Marking;
pub use rows::BitRows;
pub use words::{cut, first_bit, has_bit, joined, last_bit, with_bit, words_of};
