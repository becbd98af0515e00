//! Tests of tables, settings and the keep: how texts are read and written, and what is said of keys.
#![tactic(auto)]

#[cfg(test)]
mod columns;
#[cfg(test)]
mod config;
#[cfg(test)]
mod config_page;
#[cfg(test)]
mod entries;
#[cfg(test)]
mod read_tables;
#[cfg(test)]
mod script;
#[cfg(test)]
mod settings;
#[cfg(test)]
mod written;
