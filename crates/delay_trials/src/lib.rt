//! Changes of a day that are decided on trial, one after the other, and taken back again, with the
//! least times of what is kept. It knows of no file.
#![tactic(auto)]

mod decided;
mod ends;
mod link_places;
mod moved_ends;
mod moved_event;
mod on_trial;
mod open_changes;
mod settle;
mod taken;
mod trial;

pub use decided::Decided;
pub use trial::Trial;
