// The states of the stages of a dataset.
ghost use Rattle.std.specs.Prelude.{◌≡◌, ◌++◌, IfSome, IfOk, OnOk};
ghost use Rattle.std.specs.List.{list_all};
ghost use Rattle.std.specs.Option.{option_copied};
ghost use Rattle.plan_files.specs.Folder.{has_failed};
ghost use Rattle.plan_files.specs.Reads.{OnlyReads};
ghost use Rattle.giv_files.specs.Stages.{stage_makes};
ghost use Rattle.stage_chain.specs.declared.state.StatesEnd.TheVariants as ends;
ghost use Rattle.stage_chain.specs.Chain.{bundle_by, input_text};
ghost use Rattle.stage_chain.specs.Ends.{has_failed as has_broken};
ghost use Rattle.stage_chain.specs.States.{TellsStates, UntoldAs, held, holding_at, holding_in, kept_of};
ghost use Rattle.stage_chain.specs.States.{known_with, nothing_known, stands_as, state_by};
ghost use Rattle.stage_chain.specs.States.{state_line, state_lines, text_among};

use crate::chain_end::ChainEnd;
use crate::gather::given;
use crate::holding::Holding;
use crate::keep::kept;
use crate::known::Known;
use crate::outcome::ChainFault;
use crate::report::{push_state, refused_states};
use crate::settle::is_absent;
use crate::stages::{Stages, place_of};
use crate::state::{StageState, StatesEnd, StatesOutcome};
use config_keys::{Config, ConfigEnd, read_config};
use giv_files::{MadeList, Stage};
use plan_files::{FileFault, Files};
use plan_num::Text;
use std::alloc::Global;
use tables::FileId;

/// Tells of each stage whether its files are those that are kept of it, and whether what is kept is
/// of what it would be given. So it tells what the next run takes from what is kept, and what it
/// makes. It changes no file.
pub fn stage_states<S: Stages, F: Files>(
    alloc: Global,
    files: &mut F,
) -> Result<StatesOutcome, ChainFault>
    ensures outcome { IfSome (F.contents files.old) (λ folder.
        IfOk result (TellsStates S.parts folder)) }
    ensures only_reads { OnlyReads F.contents F.writes F.faults files.old files.new
        (has_broken result) }
{
    match read_config(alloc, files) {
        Ok(config) => told::<S, F>(alloc, files, &config),
        Err(end) => untold(alloc, end),
    }
}

// What is told where the settings could not be read.
fn untold(alloc: Global, end: ConfigEnd) -> Result<StatesOutcome, ChainFault>
    ensures { UntoldAs end result }
{
    match end {
        ConfigEnd::Refused(fault) => Ok(refused_states(alloc, fault)?),
        ConfigEnd::FileFault => Err(ChainFault::FileFault),
        ConfigEnd::NoMemory => Err(ChainFault::NoMemory),
    }
}

// The states under the settings of the dataset.
fn told<S: Stages, F: Files>(
    alloc: Global,
    files: &mut F,
    config: &Config,
) -> Result<StatesOutcome, ChainFault>
    ensures end { IfOk result (λ outcome. outcome.end ≡ ends.Told) }
    ensures report { IfSome (F.contents files.old) (λ folder. IfOk result (λ outcome.
        outcome.report ≡ state_lines S.parts folder config.now nothing_known S.parts.places)) }
    ensures only_reads { OnlyReads F.contents F.writes F.faults files.old files.new
        (has_broken result) }
{
    let mut known = Known::new(alloc);
    let mut report = Vec::new(alloc);
    for place in S::places() {
        add_state::<S, F>(alloc, files, config, *place, &mut known, &mut report)?;
    }
    Ok(StatesOutcome {
        end: StatesEnd::Told,
        report: Text::from_vec(report),
    })
}

// The line of one place.
fn add_state<S: Stages, F: Files>(
    alloc: Global,
    files: &mut F,
    config: &Config,
    place: Stage,
    known: &mut Known,
    report: &mut Vec<u8>,
) -> Result<(), ChainFault>
    ensures known { IfSome (F.contents files.old) (λ folder. OnOk result (known.new
        ≡ known_with known.old place (holding_in S.parts folder config.now known.old place))) }
    ensures line { IfSome (F.contents files.old) (λ folder. OnOk result (report.new.items
        ≡ report.old.items ++ state_line place
        (state_by folder place (holding_in S.parts folder config.now known.old place)))) }
    ensures only_reads { OnlyReads F.contents F.writes F.faults files.old files.new
        (has_broken result) }
{
    let holding = holding(alloc, files, config, S::placed(config, place), known)?;
    let state = state_by(alloc, files, place, &holding)?;
    push_state(alloc, report, place, state)?;
    known.add(place, holding)?;
    Ok(())
}

// What is held of a stage.
#[tactic(auto, unfolding(crate::specs::States::holding_at))]
fn holding<F: Files>(
    alloc: Global,
    files: &mut F,
    config: &Config,
    stage: Stage,
    known: &Known,
) -> Result<Holding, ChainFault>
    ensures holding { IfSome (F.contents files.old) (λ folder. IfOk result (λ holding.
        holding ≡ holding_at folder config.now known.now stage)) }
    ensures only_reads { OnlyReads F.contents F.writes F.faults files.old files.new
        (has_broken result) }
{
    if place_of(stage) <= place_of(config.last_stage()) {
        if known.lacks_input(config, stage) {
            Ok(Holding::Unknown)
        } else {
            held(alloc, files, config, stage, known)
        }
    } else {
        Ok(Holding::Off)
    }
}

// What is held of a stage that is to run and lacks no made file.
fn held<F: Files>(
    alloc: Global,
    files: &mut F,
    config: &Config,
    stage: Stage,
    known: &Known,
) -> Result<Holding, ChainFault>
    ensures holding { IfSome (F.contents files.old) (λ folder. IfOk result (λ holding. holding
        ≡ held (kept_of folder
        (bundle_by (input_text folder known.now.kept) config.now stage)))) }
    ensures only_reads { OnlyReads F.contents F.writes F.faults files.old files.new
        (has_broken result) }
{
    match given(alloc, files, config, stage, Some(known.kept())) {
        Ok(given) => Ok(Holding::of(kept(alloc, files, &given)?)),
        Err(ChainEnd::Stopped(_)) => Ok(Holding::Stale),
        Err(ChainEnd::FileFault) => Err(ChainFault::FileFault),
        Err(ChainEnd::NoMemory) => Err(ChainFault::NoMemory),
    }
}

// The state of a stage by what is held of it.
fn state_by<F: Files>(
    alloc: Global,
    files: &mut F,
    stage: Stage,
    holding: &Holding,
) -> Result<StageState, FileFault>
    ensures state { IfSome (F.contents files.old) (λ folder. IfOk result (λ state.
        state ≡ state_by folder stage holding.now)) }
    ensures only_reads { OnlyReads F.contents F.writes F.faults files.old files.new
        (has_failed result) }
{
    match holding {
        Holding::Off => Ok(StageState::Off),
        Holding::Unknown => Ok(StageState::Unknown),
        Holding::Stale => Ok(StageState::Stale),
        Holding::Held(made) => {
            if all_stand(alloc, files, stage, &made.files)? {
                Ok(StageState::Kept)
            } else {
                Ok(StageState::Edited)
            }
        }
    }
}

// Whether all files of a stage stand as they were made.
fn all_stand<F: Files>(
    alloc: Global,
    files: &mut F,
    stage: Stage,
    made: &MadeList,
) -> Result<bool, FileFault>
    ensures stand { IfSome (F.contents files.old) (λ folder. IfOk result (λ stand.
        stand ≡ list_all (stands_as folder made.now) (stage_makes stage))) }
    ensures only_reads { OnlyReads F.contents F.writes F.faults files.old files.new
        (has_failed result) }
{
    for file in stage.makes() {
        if !stands_as(alloc, files, made, *file)? {
            return Ok(false);
        }
    }
    Ok(true)
}

// Whether a file stands as it was made.
fn stands_as<F: Files>(
    alloc: Global,
    files: &mut F,
    made: &MadeList,
    file: FileId,
) -> Result<bool, FileFault>
    ensures stands { IfSome (F.contents files.old) (λ folder. IfOk result (λ stands.
        stands ≡ stands_as folder made.now file)) }
    ensures only_reads { OnlyReads F.contents F.writes F.faults files.old files.new
        (has_failed result) }
{
    match text_among(made, file) {
        Some(text) => files.has_bytes(alloc, file.name(), text.as_bytes()),
        None => is_absent(alloc, files, file.name()),
    }
}

// The text of a file among those that were made.
fn text_among(made: &MadeList, file: FileId) -> Option<&Text>
    ensures { option_copied result ≡ text_among made.now file }
{
    for index in 0..made.len() {
        let other = made.get(index);
        if other.file.name() == file.name() {
            return Some(&other.text);
        }
    }
    None
}
