//! Texts of periodic event scheduling: activities with weights, times, and certificates of bounds.
#![tactic(auto)]

mod answers;
mod cells;
mod certificate;
mod fault;
mod instance;
mod numbering;
mod separators;
mod times;

pub use answers::{AnswerStop, CheckedBound, JudgedTimes, check_texts, judge_texts};
pub use certificate::read_certificate;
pub use fault::{RowForm, TextFault, TextRule, TextStop};
pub use instance::{Instance, read_instance};
pub use numbering::row_number;
pub use separators::with_semicolons;
pub use times::read_times;
