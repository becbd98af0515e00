//! The judge of periodic timetables that anyone made, and of lower bounds of their weighted slack.
#![tactic(auto)]

mod bound;
mod certificate;
mod cycle;
mod greatest;
mod inequality;
mod judging;
mod leaf;
mod region;
mod step;
mod weighted;

pub use bound::check_bound;
pub use certificate::{BoundFault, BoundRule, Certificate, CertificateRow, RowWord};
pub use greatest::greatest_slack;
pub use judging::{Judged, judge};
pub use weighted::{WeightedActivity, WeightedPesp};
