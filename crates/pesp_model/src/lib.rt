//! Periodic event scheduling problems of the texts of a dataset. What they mean, and what is proved
//! of them, stands in `pesp`.
#![tactic(auto)]

mod read_texts;

pub use pesp::{PespActivity, tension};
pub use read_texts::{Pesp, problem_of_texts};
