//! Assignments of successors that gain the most: the first among all, the potentials that prove it,
//! and a judge of potentials from any hand. What it stands on it gives on.
#![tactic(auto)]

mod chosen;
mod claimable;
mod judging;
mod seek;
mod solution;
mod ties;

pub use canonical_potentials::canonical_potentials;
pub use chosen::first_best_plan;
pub use judging::is_proved;
pub use link_plans::{Link, LinkTable, Plan, Potentials, Solved};
pub use plan_search::best_plan;
pub use solution::solve;
