//! A chain of stages over the files of a dataset, whatever the stages are: runs over what is kept,
//! checks, and states.
#![tactic(auto)]

mod cause;
mod chain;
mod chain_end;
mod check;
mod checked;
mod finding;
mod fresh;
mod gather;
mod holding;
mod inputs;
mod judge;
mod keep;
mod known;
mod lines;
mod origin;
mod outcome;
mod progress;
mod report;
mod rule;
mod run;
mod settle;
mod stages;
mod standing;
mod state;
mod states;
mod writes;

pub use cause::Cause;
pub use chain_end::ChainEnd;
pub use check::check_chain;
pub use checked::{CheckEnd, CheckOutcome};
pub use command_line::{Mode, RunEnd};
pub use finding::Finding;
pub use inputs::{standing_bundle, standing_text};
pub use lines::{cause_line, missing_line, too_long_line};
pub use outcome::{ChainFault, Outcome};
pub use rule::Rule;
pub use run::run_chain;
pub use stages::Stages;
pub use state::{StatesEnd, StatesOutcome};
pub use states::stage_states;
