//! The search for a plan of links that gains the most: a round of bids, then each trip that is left
//! taken in along a least walk, with potentials that are valid for the plan.
#![tactic(auto)]

mod bid;
mod cells;
mod cheapest;
mod claim;
mod components;
mod exchange;
mod handing;
mod looks;
mod near;
mod nearest;
mod parting;
mod shift;
mod tight_places;
mod tight_plan;
mod tree;

pub use cheapest::best_plan;
pub use claim::{Claim, Claims};
pub use handing::hand_on;
pub use parting::are_met;
