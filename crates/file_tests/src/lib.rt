//! Tests of the lower crates: of numbers and texts, files and sinks, and the demo dataset. There is
//! nothing else here, so that each of those crates is proved once.
#![tactic(auto)]

#[cfg(test)]
mod calls;
#[cfg(test)]
mod demo;
#[cfg(test)]
mod disk;
#[cfg(test)]
mod folder;
#[cfg(test)]
mod listed_faults;
#[cfg(test)]
mod memory;
#[cfg(test)]
mod numbers;
#[cfg(test)]
mod output;
#[cfg(test)]
mod script;
#[cfg(test)]
mod sink;
