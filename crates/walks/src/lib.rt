//! Least walks over a network of stops and edges, by length and by time, and the paths along them.
//! After Dijkstra, A note on two problems in connexion with graphs (1959).
#![tactic(auto)]

mod edge;
mod frontier;
mod label;
mod labels;
mod least_sums;
mod network;
mod paths;
mod reach;
mod stop_edges;
mod weight;

pub use edge::Edge;
pub use network::Network;
pub use paths::Paths;
pub use reach::Reach;
