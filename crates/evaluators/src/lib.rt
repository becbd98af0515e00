//! The statistic of a dataset: what its plans cost, how long its vehicles drive and its passengers
//! wait and change, and how late it is.
#![tactic(auto)]

mod concept;
mod costed_line;
mod costs;
mod day;
mod day_values;
mod first_rows;
mod line_values;
mod lines;
mod measure;
mod periodic;
mod periodic_values;
mod rows;
mod schedule;
mod seen_lines;
mod stage;
mod statistic;
mod text;

pub use day_values::DayValues;
pub use line_values::LineValues;
pub use measure::Measure;
pub use periodic_values::PeriodicValues;
pub use rows::{CostRow, LineRow};
pub use stage::make_statistic;
pub use statistic::Statistic;
