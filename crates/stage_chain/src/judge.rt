// The judge of a stage whose files stand in a folder.
ghost use Rattle.std.specs.Prelude.{◌≡◌, [], IfSome, IfOk, IfNone, Ok, option_copied, zip};
ghost use Rattle.std.specs.List.{list_all};
ghost use Rattle.std.specs.Str.{bytes_eq};
ghost use Rattle.plan_files.specs.Reads.{OnlyReads};
ghost use Rattle.giv_files.specs.declared.stage.Stage.TheVariants as stages;
ghost use Rattle.giv_files.specs.MadeLists.{MakesAs, ids_of};
ghost use Rattle.giv_files.specs.Settings.{Fits};
ghost use Rattle.stage_chain.specs.Checks.{found_over};
ghost use Rattle.stage_chain.specs.Checks.{EndedAs, judge};
ghost use Rattle.stage_chain.specs.Checks.{standing};
ghost use Rattle.stage_chain.specs.Passing.{StageStands};
ghost use Rattle.stage_chain.specs.Ends.{has_failed};

use crate::chain_end::ChainEnd;
use crate::finding::Finding;
use crate::gather::gather;
use crate::outcome::ChainFault;
use crate::rule::Rule;
use crate::stages::Stages;
use crate::standing::standing;
use config_keys::Config;
use giv_files::{Bundle, Stage};
use plan_files::Files;
use std::alloc::Global;

/// What is found of a stage, where it does not pass: first of its inputs, then of the files that it
/// makes.
pub(crate) fn judge<S: Stages, F: Files>(
    alloc: Global,
    files: &mut F,
    config: &Config,
    stage: Stage,
) -> Result<Option<Finding>, ChainFault>
    ensures found { IfSome (F.contents files.old) (λ folder.
        IfOk result (λ found. found ≡ judge S.parts folder config.now stage)) }
    ensures passes { IfSome (F.contents files.old) (λ folder.
        IfOk result (λ found. IfNone found (StageStands S.parts folder config.now stage))) }
    ensures only_reads { OnlyReads F.contents F.writes F.faults files.old files.new
        (has_failed result) }
{
    match gather(alloc, files, config, stage) {
        Ok(bundle) => judge_files::<S, F>(alloc, files, config, &bundle, stage),
        Err(end) => ended(stage, end),
    }
}

// What is found of a stage that was not given its inputs.
fn ended(stage: Stage, end: ChainEnd) -> Result<Option<Finding>, ChainFault>
    ensures found { EndedAs stage end result }
{
    match end {
        ChainEnd::Stopped(cause) => Ok(Some(Finding::of(stage, cause))),
        ChainEnd::FileFault => Err(ChainFault::FileFault),
        ChainEnd::NoMemory => Err(ChainFault::NoMemory),
    }
}

// What is found of the files that a stage makes, over what it is given.
fn judge_files<S: Stages, F: Files>(
    alloc: Global,
    files: &mut F,
    config: &Config,
    bundle: &Bundle,
    stage: Stage,
) -> Result<Option<Finding>, ChainFault>
    requires fits { Fits bundle.now }
    requires stage { bundle.now.stage ≡ stage }
    ensures found { IfSome (F.contents files.old) (λ folder.
        IfOk result (λ found. found ≡ found_over S.parts folder config.now stage (Ok bundle.now))) }
    ensures passes { IfSome (F.contents files.old) (λ folder. IfOk result (λ found.
        IfNone found (S.parts.Satisfies config.now bundle.now (standing folder stage)))) }
    ensures only_reads { OnlyReads F.contents F.writes F.faults files.old files.new
        (has_failed result) }
{
    let there = standing(alloc, files, stage)?;
    match there {
        Some(there) => Ok(S::judge(alloc, config, bundle, &there)?),
        None => Ok(Some(Finding::Broken(stage, Rule::Missing))),
    }
}
