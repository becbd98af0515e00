//! The stage of loads: how many customers go over each edge, and how often it is to be driven.
#![tactic(auto)]

mod demand;
mod demand_row;
mod frequency;
mod load_table;
mod stage;

pub use stage::make_load;
