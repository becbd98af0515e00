//! Vehicle schedules: which trip may follow which, plans of vehicles, what they cost, and their text.
#![tactic(auto)]

mod cost;
mod dead_times;
mod plan_fault;
mod reader;
mod row_form;
mod schedule_cells;
mod schedule_reading;
mod schedule_writing;
mod trips;

pub use assignment::Plan;
pub use cost::plan_cost;
pub use plan_fault::PlanFault;
pub use schedule_reading::read_plan;
pub use schedule_writing::write_plan;
pub use trips::Trips;
