// The judges of files by rules of their own, over what their stage is given.
ghost use Rattle.std.specs.Prelude.{◌≡◌, [], IfOk, IfNone, None, option_copied};
ghost use Rattle.giv_files.specs.declared.key.Key.TheVariants as keys;
ghost use Rattle.giv_files.specs.declared.stage.Stage.TheVariants as stages;
ghost use Rattle.giv_files.specs.MadeLists.{MakesAs, ids_of};
ghost use Rattle.giv_files.specs.Settings.{Fits};
ghost use Rattle.delay_management.specs.DispositionStage.{disposition_faults};
ghost use Rattle.delay_management.specs.Judged.{Passes};
ghost use Rattle.vehicle_flow.specs.RightSchedules.{ScheduleIsRight};
ghost use Rattle.vehicle_flow.specs.RightVehicles.{VehiclesAreRight};
ghost use Rattle.planning_stages.specs.Models.{ConceptPasses, DispositionPasses, TimetablePasses};
ghost use Rattle.planning_stages.specs.Places.{in_place, is_pinned};
ghost use Rattle.planning_stages.specs.Planning.{schedule_judged};
ghost use Rattle.planning_stages.specs.Verdicts.{bare_found, bare_verdict, concept_verdict};
ghost use Rattle.planning_stages.specs.Verdicts.{disposition_verdict, first_text};
ghost use Rattle.planning_stages.specs.Verdicts.{reasons_found, schedule_verdict};
ghost use Rattle.planning_stages.specs.Verdicts.{timetable_verdict};

use crate::places::is_pinned;
use crate::rules::{bare_rule, concept_rule, reason_rule, schedule_rule, timetable_rule};
use config_keys::Config;
use delay_management::check_reasons;
use giv_files::{Bundle, Key, MadeFile, Stage};
use line_search::check_concept;
use pesp_search::check_timetable;
use plan_num::NoMemory;
use stage_chain::{Cause, Finding, Rule};
use std::alloc::Global;
use tables::StageFault;
use vehicle_flow::{ScheduleFault, check_schedule};

// What is found of the files of a stage, by the answer of their judge: the arms say what that is
// where the inputs of the stage are not refused.
macro_rules! finding {
    ($stage:expr, $answer:expr, { $($arms:tt)* }) => {
        match $answer {
            $($arms)*
            Err(StageFault::Refused(refusal)) => Ok(Some(Finding::of(
                $stage,
                Cause::Refused($stage, refusal),
            ))),
            Err(StageFault::NoMemory) => Err(NoMemory),
        }
    };
}

/// What is found of a concept, with the tree that may stand behind it.
pub(crate) fn judge_concept(
    alloc: Global,
    _config: &Config,
    bundle: &Bundle,
    there: &[MadeFile],
) -> Result<Option<Finding>, NoMemory>
    requires fits { Fits bundle.now }
    requires stage { bundle.now.stage ≡ stages.Concept }
    ensures found { IfOk result (λ found. found ≡ concept_verdict bundle.now there.now) }
    ensures passes { MakesAs stages.Concept (ids_of there.now) → IfOk result (λ found.
        IfNone found (ConceptPasses bundle.now there.now)) }
{
    let [concept, more @ ..] = there else {
        return Ok(None);
    };
    finding!(
        Stage::Concept,
        check_concept(alloc, bundle, concept.text.as_bytes(), first_text(more)),
        {
            Ok(None) => Ok(None),
            Ok(Some(fault)) => Ok(Some(Finding::Broken(Stage::Concept, concept_rule(fault)))),
        }
    )
}

/// What is found of a timetable.
pub(crate) fn judge_timetable(
    alloc: Global,
    _config: &Config,
    bundle: &Bundle,
    there: &[MadeFile],
) -> Result<Option<Finding>, NoMemory>
    requires fits { Fits bundle.now }
    requires stage { bundle.now.stage ≡ stages.Timetable }
    ensures found { IfOk result (λ found. found ≡ timetable_verdict bundle.now there.now) }
    ensures passes { MakesAs stages.Timetable (ids_of there.now) → IfOk result (λ found.
        IfNone found (TimetablePasses bundle.now there.now)) }
{
    let [times, ..] = there else {
        return Ok(None);
    };
    finding!(Stage::Timetable, check_timetable(alloc, bundle, times.text.as_bytes()), {
        Ok(None) => Ok(None),
        Ok(Some(fault)) => Ok(Some(Finding::Broken(Stage::Timetable, timetable_rule(fault)))),
    })
}

/// What is found of a vehicle schedule: one that people give needs no potentials.
pub(crate) fn judge_vehicles(
    alloc: Global,
    config: &Config,
    bundle: &Bundle,
    there: &[MadeFile],
) -> Result<Option<Finding>, NoMemory>
    requires fits { Fits bundle.now }
    requires stage { bundle.now.stage ≡ stages.Vehicles }
    ensures found { IfOk result (λ found. found
        ≡ (schedule_judged (is_pinned config.now keys.PinVehicles)).verdict bundle.now there.now) }
    ensures passes { MakesAs (in_place config.now stages.Vehicles) (ids_of there.now)
        → IfOk result (λ found.
        IfNone found ((schedule_judged (is_pinned config.now keys.PinVehicles)).Satisfies
        bundle.now there.now)) }
{
    if is_pinned(config, Key::PinVehicles) {
        bare_verdict(alloc, bundle, there)
    } else {
        schedule_verdict(alloc, bundle, there)
    }
}

// What is found of a vehicle schedule, with the potentials that may stand behind it.
fn schedule_verdict(
    alloc: Global,
    bundle: &Bundle,
    there: &[MadeFile],
) -> Result<Option<Finding>, NoMemory>
    requires fits { Fits bundle.now }
    requires stage { bundle.now.stage ≡ stages.Vehicles }
    ensures found { IfOk result (λ found. found ≡ schedule_verdict bundle.now there.now) }
    ensures passes { MakesAs stages.Vehicles (ids_of there.now) → IfOk result (λ found.
        IfNone found (VehiclesAreRight bundle.now there.now)) }
{
    let [schedule, more @ ..] = there else {
        return Ok(None);
    };
    finding!(
        Stage::Vehicles,
        check_schedule(alloc, bundle, schedule.text.as_bytes(), first_text(more)),
        {
            Ok(None) => Ok(None),
            Ok(Some(fault)) => Ok(Some(Finding::Broken(Stage::Vehicles, schedule_rule(fault)))),
        }
    )
}

// What is found of a vehicle schedule that needs no potentials beside it.
fn bare_verdict(
    alloc: Global,
    bundle: &Bundle,
    there: &[MadeFile],
) -> Result<Option<Finding>, NoMemory>
    requires fits { Fits bundle.now }
    requires stage { bundle.now.stage ≡ stages.Vehicles }
    ensures found { IfOk result (λ found. found ≡ bare_verdict bundle.now there.now) }
    ensures passes { MakesAs stages.PinnedVehicles (ids_of there.now) → IfOk result (λ found.
        IfNone found (ScheduleIsRight bundle.now there.now)) }
{
    let [schedule, more @ ..] = there else {
        return Ok(None);
    };
    finding!(
        Stage::Vehicles,
        check_schedule(alloc, bundle, schedule.text.as_bytes(), first_text(more)),
        {
            Ok(None) | Ok(Some(ScheduleFault::Certificate)) => Ok(None),
            Ok(Some(fault)) => Ok(Some(Finding::Broken(Stage::Vehicles, schedule_rule(fault)))),
        }
    )
}

/// What is found of a disposition, with the reasons that may stand behind it.
pub(crate) fn judge_disposition(
    alloc: Global,
    _config: &Config,
    bundle: &Bundle,
    there: &[MadeFile],
) -> Result<Option<Finding>, NoMemory>
    requires fits { Fits bundle.now }
    requires stage { bundle.now.stage ≡ stages.Disposition }
    ensures found { IfOk result (λ found. found ≡ disposition_verdict bundle.now there.now) }
    ensures passes { MakesAs stages.Disposition (ids_of there.now) → IfOk result (λ found.
        IfNone found (DispositionPasses bundle.now there.now)) }
{
    let [times, more @ ..] = there else {
        return Ok(None);
    };
    match first_text(more) {
        Some(reasons) => reasons_found(alloc, bundle, times.text.as_bytes(), reasons),
        None => bare_found(alloc, bundle, times.text.as_bytes()),
    }
}

// What is found of times with reasons beside them.
fn reasons_found(
    alloc: Global,
    bundle: &Bundle,
    times: &[u8],
    reasons: &[u8],
) -> Result<Option<Finding>, NoMemory>
    requires fits { Fits bundle.now }
    requires stage { bundle.now.stage ≡ stages.Disposition }
    ensures found { IfOk result
        (λ found. found ≡ reasons_found bundle.now times.now reasons.now) }
    ensures inputs { IfOk result
        (λ found. IfNone found (disposition_faults bundle.now ≡ [])) }
    ensures passes { IfOk result
        (λ found. IfNone found (Passes bundle.now times.now reasons.now)) }
{
    finding!(Stage::Disposition, check_reasons(alloc, bundle, times, reasons), {
        Ok(None) => Ok(None),
        Ok(Some(fault)) => Ok(Some(Finding::Broken(Stage::Disposition, reason_rule(fault)))),
    })
}

// What is found of times without reasons beside them: these are wanted.
fn bare_found(alloc: Global, bundle: &Bundle, times: &[u8]) -> Result<Option<Finding>, NoMemory>
    requires fits { Fits bundle.now }
    requires stage { bundle.now.stage ≡ stages.Disposition }
    ensures { IfOk result (λ found. found ≡ bare_found bundle.now times.now) }
{
    finding!(Stage::Disposition, check_reasons(alloc, bundle, times, b""), {
        Ok(found) => Ok(Some(Finding::Broken(Stage::Disposition, bare_rule(found)))),
    })
}

// The text of the first of some files.
fn first_text(files: &[MadeFile]) -> Option<&[u8]>
    ensures { option_copied result ≡ first_text files.now }
{
    match files {
        [first, ..] => Some(first.text.as_bytes()),
        [] => None,
    }
}

/// Nothing is found of files that have no place.
pub(crate) fn judge_nothing(
    _alloc: Global,
    _config: &Config,
    _bundle: &Bundle,
    _there: &[MadeFile],
) -> Result<Option<Finding>, NoMemory>
    ensures { IfOk result (λ found. found ≡ None) }
{
    Ok(None)
}
