//! Tests of least walks and of paths along them, called as one does who knows of stops and edges
//! alone.
#![tactic(auto)]

#[cfg(test)]
mod round;
