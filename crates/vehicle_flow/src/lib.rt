//! Vehicle schedules of least cost: the search for one, the stage that makes the chosen one, the stage
//! that takes one from a planner, and the test of a schedule from any hand.
#![tactic(auto)]

mod cheapest;
mod check;
mod given;
mod judge;
mod made;
mod pinned;
mod report;
mod schedule_fault;
mod stage;

pub use assignment::Solved;
pub use cheapest::cheapest_plan;
pub use check::check_schedule;
pub use pinned::take_vehicles;
pub use schedule_fault::ScheduleFault;
pub use stage::make_vehicles;
