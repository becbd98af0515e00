//! The rows that several stages read: events, activities and times of a period and of a day, trips,
//! rows of a vehicle schedule, delays and disposed times.
#![tactic(auto)]

mod activity_kind;
mod cells;
mod delay_file;
mod delay_row;
mod direction;
mod disposed_time;
mod disposed_time_file;
mod event_kind;
mod expanded_activity;
mod expanded_activity_file;
mod expanded_event;
mod expanded_event_file;
mod forward;
mod made_texts;
mod periodic_activity;
mod periodic_activity_file;
mod periodic_event;
mod periodic_event_file;
mod periodic_kind;
mod periodic_time;
mod periodic_time_file;
mod place;
mod ranks;
mod schedule_file;
mod schedule_kind;
mod schedule_row;
mod times;
mod trip;
mod trip_file;
mod writing;
mod written_record;

pub use activity_kind::ActivityKind;
pub use delay_file::{activity_delays, event_delays};
pub use delay_row::DelayRow;
pub use direction::Direction;
pub use disposed_time::DisposedTime;
pub use disposed_time_file::disposed_times;
pub use event_kind::EventKind;
pub use expanded_activity::ExpandedActivity;
pub use expanded_activity_file::expanded_activities;
pub use expanded_event::ExpandedEvent;
pub use expanded_event_file::expanded_events;
pub use made_texts::{
    disposed_times_text, expanded_activities_text, expanded_events_text, periodic_activities_text,
    periodic_events_text, periodic_times_text, schedule_text, trips_text,
};
pub use periodic_activity::PeriodicActivity;
pub use periodic_activity_file::periodic_activities;
pub use periodic_event::PeriodicEvent;
pub use periodic_event_file::periodic_events;
pub use periodic_kind::PeriodicKind;
pub use periodic_time::PeriodicTime;
pub use periodic_time_file::periodic_times;
pub use ranks::forward_rank;
pub use schedule_file::schedule_rows;
pub use schedule_kind::ScheduleKind;
pub use schedule_row::ScheduleRow;
pub use trip::{Trip, TripEnd};
pub use trip_file::trips;
