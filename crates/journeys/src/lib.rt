//! Journeys over a day of files: the events and connections that texts hold, and journeys as text.
//! The journeys themselves are found in `connections`.
#![tactic(auto)]

mod day;
mod net;
mod print;
mod read;

pub use connections::{
    Connection, EventKind, EventList, Found, JourneyEvent, JourneyRule, TimedEvent,
};
pub use net::JourneyNet;
pub use print::print_journey;
