//! Plays scripts over the calls of all stages, and over the calls that judge files of stages from any
//! hand, and prints which of them hold.
//!
//! The scripts stand in files that the words of the command line name (crate `script_files`). A
//! script has one of these on each line, besides comments, which begin with `#`, and empty lines:
//!
//! ```text
//! stage NAME       the stage of what follows, with default settings and empty texts
//! row WORDS        a row, which begins with what stands between `stage` and the first row
//! set KEY VALUE    a setting, as in a config file
//! input FILE       an input, whose text follows
//! given FILE       a text that is to be judged, which follows
//! make             calls the stage
//! check            calls what judges the given texts
//! ```
//!
//! After a call stands what it tells, to the letter, or `..` for the rest of it:
//!
//! ```text
//! steps N          only where it took more or fewer steps than one
//! report LINE      its line in the report; then each file that was made
//! file FILE        and its text
//! refused WHY      as in a report; and so `no solution` and `spent after N entries`
//! passes           or `breaks RULE`
//! ```
#![tactic(auto)]

mod calls;
mod judges;
mod player;
mod setup;
mod told;

use crate::player::first_wrong;
use script_files::{Play, Trouble, play_files};
use std::alloc::Global;
use std::fs;
use std::process::ExitCode;
use std::rt::{Env, Files};

// What plays scripts over the calls of stages, with the texts that have names.
#[derive(Drop)]
struct StageCalls {
    alloc: Global,
    named: String,
}

impl Play for StageCalls {
    fn play(&mut self, script: &str) -> Result<Option<String>, Trouble> {
        first_wrong(self.alloc, &self.named, script)
    }
}

// Whether all scripts hold.
fn play_all<R: AllocGlobal + Env + Files + Print>(rt: &R) -> Result<bool, Trouble> {
    let named = fs::read_to_string(rt, "named.txt")?;
    let mut calls = StageCalls {
        alloc: rt.alloc(),
        named,
    };
    play_files(rt, &mut calls)
}

fn main(rt: HostRuntime) -> ExitCode {
    match play_all(&rt) {
        Ok(true) => ExitCode::SUCCESS,
        Ok(false) => ExitCode::FAILURE,
        Err(_trouble) => ExitCode::from(2),
    }
}
