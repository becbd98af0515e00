//! The planning stages as a chain takes them: what each makes, the places in which they run, and the
//! judge of the files there.
#![tactic(auto)]

mod contents;
mod places;
mod rules;
mod stages;
mod verdicts;

pub use places::in_place;
pub use stages::{make_stage, planning_places, verdict};
