//! Tests of the top call over a real folder, the standard output, and files that never fail.
#![tactic(auto)]

#[cfg(test)]
mod call;
#[cfg(test)]
mod folder_tests;
#[cfg(test)]
mod steady_tests;
