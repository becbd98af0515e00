//! Earliest arrivals over a day: a way through its connections that arrives first, the events that
//! prove that none arrives earlier, and the test of both from any hand. It knows of no file.
#![tactic(auto)]

mod check;
mod checked_net;
mod connection;
mod earliest;
mod event;
mod event_kind;
mod event_list;
mod event_tests;
mod found;
mod links;
mod net;
mod query;
mod rule;
mod timed_event;
mod way;
mod ways;

pub use checked_net::LATEST;
pub use connection::Connection;
pub use event::JourneyEvent;
pub use event_kind::EventKind;
pub use event_list::EventList;
pub use found::Found;
pub use net::JourneyNet;
pub use rule::JourneyRule;
pub use timed_event::TimedEvent;
