//! A demo dataset made from a number: stops in the rows and columns of a square, edges between
//! neighbours, lines along them, and demand along each edge.
#![tactic(auto)]

mod demo;
mod edge;
mod line;
mod rows;

pub use demo::demo_files;
