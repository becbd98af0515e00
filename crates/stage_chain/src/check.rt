// A check of the files of a dataset.
ghost use Rattle.std.specs.Prelude.{◌≡◌, IfSome, IfOk, IfNone};
ghost use Rattle.stage_chain.specs.declared.checked.CheckEnd.TheVariants as ends;
ghost use Rattle.stage_chain.specs.Passing.{AllStand, PassesIn, RunsStand};
ghost use Rattle.plan_files.specs.Reads.{OnlyReads};
ghost use Rattle.config_keys.specs.Items.{look_in};
ghost use Rattle.config_keys.specs.Values.{effective};
ghost use Rattle.stage_chain.specs.Checks.{IsCheck, UnsettledAs, check_of, first_found};
ghost use Rattle.stage_chain.specs.Checks.{found_at};
ghost use Rattle.stage_chain.specs.Ends.{has_failed};

use crate::cause::Cause;
use crate::checked::CheckOutcome;
use crate::finding::Finding;
use crate::judge::judge;
use crate::outcome::ChainFault;
use crate::report::check_outcome;
use crate::stages::{Stages, place_of};
use config_keys::{Config, ConfigEnd, read_config};
use giv_files::Stage;
use plan_files::Files;
use std::alloc::Global;

/// Judges the files of the stages of a dataset over the files that stand there, whoever made them:
/// whether each is what its stage makes of its inputs, or keeps the rules of its kind, and whether
/// each certificate proves what it says. The first rule that is broken ends the check. It changes no
/// file.
pub fn check_chain<S: Stages, F: Files>(
    alloc: Global,
    files: &mut F,
) -> Result<CheckOutcome, ChainFault>
    ensures outcome { IfSome (F.contents files.old) (λ folder. IfOk result (IsCheck S.parts folder)) }
    ensures passes { IfSome (F.contents files.old) (λ folder.
        IfOk result (λ outcome. outcome.end ≡ ends.Passed → PassesIn S.parts folder)) }
    ensures only_reads { OnlyReads F.contents F.writes F.faults files.old files.new
        (has_failed result) }
{
    let finding = find::<S, F>(alloc, files)?;
    Ok(check_outcome(alloc, finding)?)
}

// What a check finds, where a dataset does not pass.
fn find<S: Stages, F: Files>(alloc: Global, files: &mut F) -> Result<Option<Finding>, ChainFault>
    ensures found { IfSome (F.contents files.old) (λ folder.
        IfOk result (λ found. found ≡ check_of S.parts folder)) }
    ensures passes { IfSome (F.contents files.old) (λ folder.
        IfOk result (λ found. IfNone found (PassesIn S.parts folder))) }
    ensures only_reads { OnlyReads F.contents F.writes F.faults files.old files.new
        (has_failed result) }
{
    match read_config(alloc, files) {
        Ok(config) => find_under::<S, F>(alloc, files, &config),
        Err(end) => unsettled(end),
    }
}

// What it finds where the settings could not be read.
fn unsettled(end: ConfigEnd) -> Result<Option<Finding>, ChainFault>
    ensures { UnsettledAs end result }
{
    match end {
        ConfigEnd::Refused(fault) => Ok(Some(Finding::BadInput(Cause::BadConfig(fault)))),
        ConfigEnd::FileFault => Err(ChainFault::FileFault),
        ConfigEnd::NoMemory => Err(ChainFault::NoMemory),
    }
}

// What it finds under the settings of the dataset.
fn find_under<S: Stages, F: Files>(
    alloc: Global,
    files: &mut F,
    config: &Config,
) -> Result<Option<Finding>, ChainFault>
    ensures found { IfSome (F.contents files.old) (λ folder. IfOk result (λ found.
        found ≡ first_found S.parts folder config.now S.parts.places)) }
    ensures passes { IfSome (F.contents files.old) (λ folder.
        IfOk result (λ found. IfNone found (AllStand S.parts folder config.now S.parts.places))) }
    ensures only_reads { OnlyReads F.contents F.writes F.faults files.old files.new
        (has_failed result) }
{
    for place in S::places() {
        let found = find_at::<S, F>(alloc, files, config, *place)?;
        if found.is_some() {
            return Ok(found);
        }
    }
    Ok(None)
}

// What it finds of one stage, where that is to run.
fn find_at<S: Stages, F: Files>(
    alloc: Global,
    files: &mut F,
    config: &Config,
    stage: Stage,
) -> Result<Option<Finding>, ChainFault>
    ensures found { IfSome (F.contents files.old) (λ folder. IfOk result (λ found.
        found ≡ found_at S.parts folder config.now stage)) }
    ensures passes { IfSome (F.contents files.old) (λ folder.
        IfOk result (λ found. IfNone found (RunsStand S.parts folder config.now stage))) }
    ensures only_reads { OnlyReads F.contents F.writes F.faults files.old files.new
        (has_failed result) }
{
    if place_of(stage) <= place_of(config.last_stage()) {
        judge::<S, F>(alloc, files, config, stage)
    } else {
        Ok(None)
    }
}
