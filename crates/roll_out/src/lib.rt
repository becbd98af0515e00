//! A periodic timetable rolled out over a day.
#![tactic(auto)]

mod changes;
mod copies;
mod day;
mod event_ways;
mod files;
mod network;
mod plan;
mod refused;
mod rules;
mod run;
mod stage;
mod timed_event;
mod trip;
mod ways;

pub use stage::make_rollout;
