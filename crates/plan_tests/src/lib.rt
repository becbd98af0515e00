//! Tests of the plans from which the stages are made: line problems and their trees, timetables, and
//! plans of vehicles.
#![tactic(auto)]

#[cfg(test)]
mod canonical;
#[cfg(test)]
mod certificates;
#[cfg(test)]
mod plans;
#[cfg(test)]
mod refusing;
#[cfg(test)]
mod searched;
#[cfg(test)]
mod tensions;
#[cfg(test)]
mod tree_texts;
