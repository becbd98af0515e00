// The stages of a chain, one after the other, over what is kept of them.
ghost use Rattle.std.specs.Prelude.{◌≡◌, ◌≤◌, [], false, IfSome};
ghost use Rattle.plan_files.specs.Reads.{OnlyReads};
ghost use Rattle.config_keys.specs.Items.{look_in};
ghost use Rattle.config_keys.specs.Values.{effective};
ghost use Rattle.giv_files.specs.Settings.{Fits};
ghost use Rattle.stage_chain.specs.Chain.{chain_from, to_run, visit_of};
ghost use Rattle.stage_chain.specs.Ends.{is_broken};
ghost use Rattle.stage_chain.specs.Kept.{solve_over, trace_over};
ghost use Rattle.stage_chain.specs.StageParts.{staged};
ghost use Rattle.stage_chain.specs.Progress.{ChainGives, HasNoHandFile, MakingGives, NamesNoHand};
ghost use Rattle.stage_chain.specs.Progress.{VisitGives, nothing};

use crate::cause::Cause;
use crate::chain_end::ChainEnd;
use crate::gather::given;
use crate::keep::{kept, new_entry};
use crate::progress::Progress;
use crate::stages::{Stages, place_of, staged};
use config_keys::{Config, read_config};
use giv_files::{Bundle, Stage};
use plan_files::Files;
use plan_num::{Ledger, Steps};
use std::alloc::Global;
use tables::StageFault;

/// Runs the stages that are built over the files of a dataset, up to the last one that its settings
/// name or to where the chain ends early. What is kept of what a stage is given is not made again.
pub(crate) fn run_built<S: Stages, F: Files, L: Ledger>(
    alloc: Global,
    files: &mut F,
    steps: &mut Steps<L>,
    progress: &mut Progress,
) -> Result<(), ChainEnd>
    requires { progress.old ≡ nothing }
    ensures chain { IfSome (F.contents files.old) (λ folder.
        ChainGives S.parts folder (trace_over S.parts folder folder)
        progress.new steps.old steps.new result) }
    ensures only_reads { OnlyReads F.contents F.writes F.faults files.old files.new
        (is_broken result) }
    ensures no_hand_file { HasNoHandFile progress.new result }
    ensures no_less { steps.old ≤ steps.new }
{
    let config = read_config(alloc, files)?;
    run_stages::<S, F, L>(alloc, files, &config, steps, progress)
}

// Runs the stages under the settings of the dataset.
fn run_stages<S: Stages, F: Files, L: Ledger>(
    alloc: Global,
    files: &mut F,
    config: &Config,
    steps: &mut Steps<L>,
    progress: &mut Progress,
) -> Result<(), ChainEnd>
    requires { progress.old ≡ nothing }
    ensures chain { IfSome (F.contents files.old) (λ folder.
        ChainGives S.parts folder
        (chain_from (solve_over S.parts folder) config.now folder [] (to_run config.now (staged S.parts config.now)))
        progress.new steps.old steps.new result) }
    ensures only_reads { OnlyReads F.contents F.writes F.faults files.old files.new
        (is_broken result) }
    ensures no_hand_file { HasNoHandFile progress.new result }
    ensures no_less { steps.old ≤ steps.new }
{
    for stage in &staged::<S>(alloc, config)? {
        if place_of(*stage) <= place_of(config.last_stage()) {
            visit::<S, F, L>(alloc, files, config, *stage, steps, progress)?;
        }
    }
    Ok(())
}

// Takes one stage from what is kept, or makes it.
fn visit<S: Stages, F: Files, L: Ledger>(
    alloc: Global,
    files: &mut F,
    config: &Config,
    stage: Stage,
    steps: &mut Steps<L>,
    progress: &mut Progress,
) -> Result<(), ChainEnd>
    requires { NamesNoHand progress.old }
    ensures visit { IfSome (F.contents files.old) (λ folder. VisitGives S.parts folder
        (visit_of (solve_over S.parts folder) config.now folder progress.old.files stage)
        progress.old progress.new steps.old steps.new result) }
    ensures only_reads { OnlyReads F.contents F.writes F.faults files.old files.new
        (is_broken result) }
    ensures no_hand_file { HasNoHandFile progress.new result }
    ensures no_less { steps.old ≤ steps.new }
{
    let given = given(alloc, files, config, stage, Some(progress.files()))?;
    match kept(alloc, files, &given)? {
        Some(made) => {
            drop(given);
            progress.add(made, None)?;
            Ok(())
        }
        None => {
            let bundle = given.into_bundle(alloc)?;
            make::<S, L>(alloc, &bundle, steps, progress)
        }
    }
}

// Makes a stage that is not kept, with its entry.
fn make<S: Stages, L: Ledger>(
    alloc: Global,
    bundle: &Bundle,
    steps: &mut Steps<L>,
    progress: &mut Progress,
) -> Result<(), ChainEnd>
    requires fits { Fits bundle.now }
    requires no_hand_file { NamesNoHand progress.old }
    ensures makes { MakingGives S.parts bundle.now progress.old progress.new steps.old steps.new result }
    ensures no_hand_file { HasNoHandFile progress.new result }
    ensures fault_free { is_broken result ≡ false }
{
    match S::make(alloc, bundle, steps) {
        Ok(made) => {
            let entry = new_entry(alloc, bundle, &made)?;
            progress.add(made, Some(entry))?;
            Ok(())
        }
        Err(StageFault::Refused(refusal)) => {
            Err(ChainEnd::Stopped(Cause::Refused(bundle.stage(), refusal)))
        }
        Err(StageFault::NoMemory) => Err(ChainEnd::NoMemory),
    }
}
