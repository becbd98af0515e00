//! The command line: the words that ask for something, how runs and questions end, the exit status,
//! and how a report is written.
#![tactic(auto)]

mod command;
mod ends;
mod form;
mod mode;
mod parse;
mod report;
mod status;
mod terminals;
mod words;

pub use command::{Command, command_of};
pub use ends::{QueryEnd, RunEnd};
pub use form::Form;
pub use mode::Mode;
pub use parse::form_of;
pub use report::{tell, tell_fault};
pub use status::Status;
pub use terminals::Terminals;
