//! The program `lintim`: runs a planning chain over the dataset in the folder where it is started.
#![tactic(auto)]

use lintim_cli::run_program;
use std::process::ExitCode;

fn main(rt: HostRuntime) -> ExitCode {
    ExitCode::from(run_program(&rt))
}
