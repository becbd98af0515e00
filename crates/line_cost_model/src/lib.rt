//! The cost model of line planning: which frequencies of lines are feasible, what they cost, and
//! what a region of them costs at least. After Schöbel, Line planning in public transportation
//! (2012).
#![tactic(auto)]

mod bound;
mod concept;
mod edge;
mod edge_sums;
mod empty;
mod evidence;
mod line;
mod multipliers;
mod pass;
mod problem;
mod range;
mod region;
mod running;
mod side;
mod summed;
mod sums;

pub use bound::{Bound, KeptBound};
pub use multipliers::Multipliers;
pub use problem::LineProblem;
pub use region::Region;
pub use side::Side;
pub use summed::SummedRegion;
