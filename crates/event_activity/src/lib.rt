//! The periodic event-activity network of a line concept.
#![tactic(auto)]

mod activities;
mod bounds;
mod files;
mod joining;
mod next_events;
mod run_event;
mod run_place;
mod runs;
mod stage;

pub use stage::make_ean;
