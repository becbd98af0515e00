// The planning stages.
ghost use Rattle.std.specs.Prelude.{◌≡◌, IfNone, IfOk};
ghost use Rattle.giv_files.specs.MadeLists.{MakesAs, ids_of};
ghost use Rattle.giv_files.specs.Settings.{Fits};
ghost use Rattle.giv_files.specs.StageCalls.{StageGives, TakesSteps};
ghost use Rattle.planning_stages.specs.Planning.{planning};

use crate::contents::judge_contents;
use crate::verdicts::{
    judge_concept, judge_disposition, judge_nothing, judge_timetable, judge_vehicles,
};
use config_keys::Config;
use delay_management::make_disposition;
use demand_load::make_load;
use evaluators::make_statistic;
use event_activity::make_ean;
use giv_files::{Bundle, Made, MadeFile, Stage};
use line_pool::make_cost;
use line_search::{make_concept, take_concept};
use pesp_search::{make_timetable, take_timetable};
use plan_num::{Ledger, NoMemory, Steps};
use roll_out::make_rollout;
use stage_chain::Finding;
use std::alloc::Global;
use tables::StageFault;
use vehicle_flow::{make_vehicles, take_vehicles};

// The list of the stages: of each, the call that makes its files, and the one that judges files in
// the place of its name.
macro_rules! by_stage {
    ($stage:expr, $part:ident $arguments:tt) => {
        match $stage {
            Stage::Load => call!($part, make_load, judge_contents, $arguments),
            Stage::Cost => call!($part, make_cost, judge_contents, $arguments),
            Stage::Concept => call!($part, make_concept, judge_concept, $arguments),
            Stage::Ean => call!($part, make_ean, judge_contents, $arguments),
            Stage::Timetable => call!($part, make_timetable, judge_timetable, $arguments),
            Stage::Rollout => call!($part, make_rollout, judge_contents, $arguments),
            Stage::Vehicles => call!($part, make_vehicles, judge_vehicles, $arguments),
            Stage::Disposition => call!($part, make_disposition, judge_disposition, $arguments),
            Stage::Statistic => call!($part, make_statistic, judge_contents, $arguments),
            Stage::PinnedConcept => call!($part, take_concept, judge_nothing, $arguments),
            Stage::PinnedTimetable => call!($part, take_timetable, judge_nothing, $arguments),
            Stage::PinnedVehicles => call!($part, take_vehicles, judge_nothing, $arguments),
        }
    };
}

// One of the two calls of a stage.
macro_rules! call {
    (make, $make:ident, $judge:ident, $arguments:tt) => {
        $make $arguments
    };
    (judge, $make:ident, $judge:ident, $arguments:tt) => {
        $judge $arguments
    };
}

/// The nine places of the planning chain, in the order in which they run.
#[tactic(auto, unfolding(crate::specs::Planning::planning))]
pub fn planning_places() -> &'static [Stage]
    ensures { result.now ≡ planning.places }
{
    Stage::places()
}

/// Makes what the stage of a bundle makes of it.
#[tactic(auto, unfolding(crate::specs::Planning::planning, crate::specs::Planning::stage_model))]
pub fn make_stage<L: Ledger>(
    alloc: Global,
    bundle: &Bundle,
    steps: &mut Steps<L>,
) -> Result<Made, StageFault>
    requires { Fits bundle.now }
    ensures made { StageGives (planning.run bundle.now) result }
    ensures steps { TakesSteps (planning.work bundle.now) steps.old steps.new result }
{
    by_stage!(bundle.stage(), make(alloc, bundle, steps))
}

/// What is found under the settings of a dataset of files from any hand in a place, over what the
/// place is given.
#[tactic(auto, unfolding(crate::specs::Planning::planning, crate::specs::Planning::stage_model))]
pub fn verdict(
    alloc: Global,
    config: &Config,
    bundle: &Bundle,
    there: &[MadeFile],
) -> Result<Option<Finding>, NoMemory>
    requires fits { Fits bundle.now }
    ensures found { IfOk result (λ found. found ≡ planning.verdict config.now bundle.now there.now) }
    ensures passes { MakesAs (planning.placed config.now bundle.now.stage) (ids_of there.now)
        → IfOk result (λ found.
        IfNone found (planning.Satisfies config.now bundle.now there.now)) }
{
    by_stage!(bundle.stage(), judge(alloc, config, bundle, there))
}
