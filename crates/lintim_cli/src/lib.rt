//! The top call: a command line over a dataset, and its report.
#![tactic(auto)]

mod check;
mod demo;
mod program;
mod question;
mod run;
mod status;
mod top;
mod words;

pub use command_line::Status;
pub use demo_dataset::demo_files;
pub use program::run_program;
pub use top::lintim;
