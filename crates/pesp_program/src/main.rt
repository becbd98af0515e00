//! The program `pesp-judge`: judges times of a periodic event scheduling problem, and certificates
//! of lower bounds of its weighted slack.
#![tactic(auto)]

mod command;
mod report;
mod run;
mod stop;

use std::process::ExitCode;

fn main(rt: HostRuntime) -> ExitCode {
    ExitCode::from(run::run(&rt))
}
