//! Dispositions of files: the problem that the inputs of the stage hold, what is written of its
//! least times and of why each event is as late as it is, and the test of both from any hand.
#![tactic(auto)]

mod bundle_problem;
mod check;
mod day;
mod day_lateness;
mod delays;
mod fault;
mod files;
mod inputs;
mod judge;
mod rows;
mod stage;
mod turns;

pub use bundle_problem::problem_of_bundle;
pub use check::check_reasons;
pub use day::Propagation;
pub use day_lateness::delay_at;
pub use delay_trials::{Decided, Trial};
pub use fault::ReasonFault;
pub use propagation::{Activity, DayEvent, Reason, Step, Times, missed_at};
pub use stage::make_disposition;
