//! Questions about a dataset beside the chain: waiting decisions, journeys, and pools of lines.
#![tactic(auto)]

mod answer;
mod asking;
mod check;
mod fault;
mod journey;
mod pool;
mod waits;

pub use answer::Answer;
pub use asking::ask;
pub use command_line::{Form, QueryEnd, Terminals, form_of};
