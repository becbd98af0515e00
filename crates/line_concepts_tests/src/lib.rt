//! Tests of line concepts of least cost and of the trees that certify them, called as one does who
//! knows of lines, edges and frequencies alone.
#![tactic(auto)]

#[cfg(test)]
mod line_bounds;
#[cfg(test)]
mod nodes;
#[cfg(test)]
mod searches;
#[cfg(test)]
mod trees;
