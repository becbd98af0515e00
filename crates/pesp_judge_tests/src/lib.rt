//! Tests of the judge of periodic timetables, called by texts as its program calls it.
#![tactic(auto)]

#[cfg(test)]
mod bounds;
#[cfg(test)]
mod times;
