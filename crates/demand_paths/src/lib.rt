//! Demand over the least walks of a network: how many customers go over each edge.
#![tactic(auto)]

mod far_stop;
mod known_paths;
mod on_edges;
mod wanted;

pub use known_paths::KnownPaths;
pub use on_edges::loads_of_wanted;
pub use wanted::Wanted;
