//! Canonical potentials of a plan of links: the least costs of walks in the residual graph, by one
//! walk from its furthest nodes on and one round that finds nothing better.
#![tactic(auto)]

mod arcs;
mod canonical;
mod drops;
mod linked_plan;
mod passes;
mod walk;

pub use canonical::canonical_potentials;
