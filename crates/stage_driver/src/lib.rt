//! The chain of the nine planning stages over the files of a dataset.
#![tactic(auto)]

mod check;
mod planning;
mod run;
mod states;

pub use check::check_chain;
pub use run::run_chain;
pub use stage_chain::{
    ChainFault, CheckEnd, CheckOutcome, Mode, Outcome, Rule, RunEnd, StatesEnd, StatesOutcome,
};
pub use states::stage_states;
