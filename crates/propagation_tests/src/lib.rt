//! Tests of delays that go on through a day, called as one does who knows of events and steps alone.
#![tactic(auto)]

#[cfg(test)]
mod day;
#[cfg(test)]
mod tried;
