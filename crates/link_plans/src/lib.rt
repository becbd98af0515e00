//! Links between trips, plans over them, and potentials: tables of links, successors with their
//! places, two numbers for each trip, and what a link has left under them.
#![tactic(auto)]

mod assignment;
mod checked_lists;
mod limits;
mod link_table;
mod numbers;
mod plan;
mod slack;
mod solved;

pub use assignment::Assignment;
pub use limits::{MOST_GAIN, MOST_POTENTIAL, MOST_SLACK, MOST_TRIPS};
pub use link_table::{Link, LinkTable};
pub use numbers::{Potentials, zeros};
pub use plan::Plan;
pub use slack::{as_i64, cover, link_rest, link_slack, of_trip, set_place, set_trip};
pub use solved::Solved;
