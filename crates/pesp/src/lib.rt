//! Periodic event scheduling: problems, tensions of activities, timetables, and the search of one
//! by the times that are left to events where each has a partner on every activity.
#![tactic(auto)]

mod activity;
mod activity_end;
mod children;
mod close;
mod cycles;
mod flags;
mod graph;
mod links;
mod marks;
mod problem;
mod prune;
mod reduce;
mod revise;
mod search;
mod standing;
mod tensions;
mod time_sets;
mod windows;
mod words;

pub use activity::PespActivity;
pub use problem::Pesp;
pub use search::{FoundTimes, SearchEnd, search_times};
pub use tensions::tension;
