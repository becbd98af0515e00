//! Tests of assignments of successors, called as one does who knows of links and gains alone.
#![tactic(auto)]

#[cfg(test)]
mod tables;
