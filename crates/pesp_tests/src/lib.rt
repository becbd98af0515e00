//! Tests of periodic event scheduling, called as one does who knows of events and activities alone.
#![tactic(auto)]

#[cfg(test)]
mod problems;
