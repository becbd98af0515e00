//! The stage that searches a periodic timetable, the one that takes a planner's, and the test of a
//! timetable from any hand. The search itself stands in `pesp`.
#![tactic(auto)]

mod check;
mod fault;
mod files;
mod judge;
mod pinned;
mod searched;
mod stage;

pub use check::check_timetable;
pub use fault::TimetableFault;
pub use pinned::take_timetable;
pub use stage::make_timetable;
