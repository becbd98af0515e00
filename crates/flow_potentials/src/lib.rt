//! Potentials of trips, which prove what a vehicle schedule costs at least: their texts, their
//! judge, and the links between trips over which they stand.
#![tactic(auto)]

mod canonical;
mod checking;
mod potential_fault;
mod table_reading;
mod table_writing;
mod trip_links;

pub use assignment::Potentials;
pub use canonical::potentials;
pub use checking::check_potentials;
pub use potential_fault::PotentialFault;
pub use table_reading::read_potentials;
pub use table_writing::write_potentials;
pub use trip_links::links_of_trips;
