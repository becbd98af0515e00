//! How delays go on through a day: the least times where some changes are kept, how late they are,
//! why each event is not earlier, and what proves that no times are. It knows of no file.
#![tactic(auto)]

mod checked_day;
mod checked_step;
mod day_event;
mod early;
mod lateness;
mod links;
mod marks;
mod outgoing;
mod pass;
mod propagation;
mod reason;
mod reasons;
mod step;
mod times;
mod waiting;
mod wrong_reasons;

pub use day_event::{DayEvent, forward_rank};
pub use early::first_early;
pub use lateness::{delay_at, missed_at, more_delay};
pub use links::Link;
pub use pass::counts;
pub use propagation::Propagation;
pub use reason::Reason;
pub use reasons::{asked, canonical_reasons};
pub use step::{Activity, Step};
pub use times::{LATEST, Times, is_broken};
pub use waiting::{kept_activities, waiting_changes};
pub use wrong_reasons::first_wrong;
