//! The program `lintim`, for a stored run of words that are no command.
#![tactic(auto)]

use lintim_cli::run_program;
use std::process::ExitCode;

fn main(rt: HostRuntime) -> ExitCode {
    ExitCode::from(run_program(&rt))
}
