//! Tests of earliest arrivals, called as one does who knows of events and connections alone.
#![tactic(auto)]

#[cfg(test)]
mod days;
