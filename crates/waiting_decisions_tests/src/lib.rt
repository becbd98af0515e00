//! Tests of waiting decisions, called as one does who knows of events and steps alone.
#![tactic(auto)]

#[cfg(test)]
mod chosen;
#[cfg(test)]
mod day;
#[cfg(test)]
mod judged;
