//! The network of public transport: stops, and edges between them.
#![tactic(auto)]

mod edge_load;
mod edge_row;
mod edges;
mod load_row;
mod loads;
mod network;
mod stops;

pub use edge_load::EdgeLoad;
pub use loads::Loads;
pub use network::Network;
pub use walks::{Edge, Paths, Reach};
