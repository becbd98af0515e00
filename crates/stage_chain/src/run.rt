// A run of the chain over the files of a dataset.
ghost use Rattle.std.specs.Prelude.{◌≡◌, ◌≤◌, ◌++◌, IfSome, IfOk, IfErr, OnOk, Some};
ghost use Rattle.plan_files.specs.Applied.{AreApplied};
ghost use Rattle.plan_files.specs.Counts.{Counts};
ghost use Rattle.plan_files.specs.Reads.{OnlyReads};
ghost use Rattle.stage_chain.specs.ChainLaws.{ChainLaws};
ghost use Rattle.stage_chain.specs.Ends.{has_failed};
ghost use Rattle.stage_chain.specs.Kept.{trace_over};
ghost use Rattle.stage_chain.specs.Progress.{EndGives, NamesNoHand, nothing};
ghost use Rattle.stage_chain.specs.Reports.{last_line, end_of};
ghost use Rattle.stage_chain.specs.RunSays.{KeptRunSays, RunSays, seen_files};
ghost use Rattle.stage_chain.specs.Runs.{AddsNoHandFile, AreNotAll, SameHand, unmet, writes_for};

use crate::cause::Cause;
use crate::chain::run_built;
use crate::chain_end::ChainEnd;
use crate::fresh::clear;
use crate::outcome::{ChainFault, Outcome};
use crate::progress::Progress;
use crate::report::outcome;
use crate::settle::settle;
use crate::stages::Stages;
use crate::writes::writes_for;
use command_line::Mode;
use plan_files::Files;
use plan_num::{Ledger, Steps};
use std::alloc::Global;

/// Runs the stages that are built over the files of a dataset: a stage that was given the same
/// before is taken from what is kept, and any other one is made. The folder then has the made files
/// that were made and no others of these stages, and the entry of each of them. Where what is kept
/// is honest, these are the files that its hand files alone determine. A fresh run first removes
/// what is kept. Every other file is as before.
pub fn run_chain<S: Stages, F: Files, L: Ledger>(
    alloc: Global,
    files: &mut F,
    mode: Mode,
    steps: &mut Steps<L>,
) -> Result<Outcome, ChainFault>
    // What this run says, and what holds of runs over all folders.
    ensures says { RunSays S.parts mode
        (seen_files F.contents F.writes F.faults files.old steps.old)
        (seen_files F.contents F.writes F.faults files.new steps.new) result }
    ensures laws { ChainLaws S.parts }
{
    clear(alloc, files, mode)?;
    run_kept::<S, F, L>(alloc, files, steps)
}

// The same over what is kept.
fn run_kept<S: Stages, F: Files, L: Ledger>(
    alloc: Global,
    files: &mut F,
    steps: &mut Steps<L>,
) -> Result<Outcome, ChainFault>
    ensures { KeptRunSays S.parts
        (seen_files F.contents F.writes F.faults files.old steps.old)
        (seen_files F.contents F.writes F.faults files.new steps.new) result }
{
    let mut progress = Progress::new(alloc);
    let cause = run_to_end::<S, F, L>(alloc, files, steps, &mut progress)?;
    finish::<S, F>(alloc, files, progress, cause)
}

// Runs the stages, and tells why the chain ended early, if it did.
fn run_to_end<S: Stages, F: Files, L: Ledger>(
    alloc: Global,
    files: &mut F,
    steps: &mut Steps<L>,
    progress: &mut Progress,
) -> Result<Option<Cause>, ChainFault>
    requires { progress.old ≡ nothing }
    ensures end { IfSome (F.contents files.old) (λ folder.
        EndGives S.parts folder (trace_over S.parts folder folder) progress.new steps.old steps.new result) }
    ensures only_reads { OnlyReads F.contents F.writes F.faults files.old files.new
        (has_failed result) }
    ensures no_hand_file { OnOk result (NamesNoHand progress.new) }
    ensures no_less { steps.old ≤ steps.new }
{
    match run_built::<S, F, L>(alloc, files, steps, progress) {
        Ok(()) => Ok(None),
        Err(ChainEnd::Stopped(cause)) => Ok(Some(cause)),
        Err(ChainEnd::FileFault) => Err(ChainFault::FileFault),
        Err(ChainEnd::NoMemory) => Err(ChainFault::NoMemory),
    }
}

// Tells how a run ended, and makes its writes.
fn finish<S: Stages, F: Files>(
    alloc: Global,
    files: &mut F,
    progress: Progress,
    cause: Option<Cause>,
) -> Result<Outcome, ChainFault>
    requires { NamesNoHand progress }
    ensures report { IfOk result (λ outcome. outcome.report ≡ progress.report ++ last_line cause) }
    ensures end { IfOk result (λ outcome. outcome.end ≡ end_of cause) }
    ensures left { IfSome (F.contents files.old) (λ folder. OnOk result (AreApplied
        (unmet folder (writes_for S.parts progress.files) ++ progress.entries) (Some folder)
        (F.contents files.new) (F.writes files.old) (F.writes files.new))) }
    ensures unfinished { IfSome (F.contents files.old) (λ folder.
        IfErr result (λ fault. AreNotAll fault
        (unmet folder (writes_for S.parts progress.files) ++ progress.entries) (Some folder)
        (F.contents files.new) (F.writes files.old) (F.writes files.new))) }
    ensures hand { SameHand (F.contents files.old) (F.contents files.new) }
    ensures writes_no_hand_file { AddsNoHandFile (F.writes files.old) (F.writes files.new) }
    ensures faults { Counts (has_failed result) (F.faults files.old) (F.faults files.new) }
{
    let (made, lines, entries) = progress.into_parts();
    let outcome = outcome(alloc, lines, cause)?;
    let wishes = writes_for::<S>(alloc, made)?;
    settle(alloc, files, wishes, entries)?;
    Ok(outcome)
}
