// The planning stages as the stages of a chain.
ghost use Rattle.planning_stages.specs.Planning.{planning};
ghost use Rattle.planning_stages.proofs.Laws.{planning_laws};

use config_keys::Config;
use giv_files::{Bundle, Made, MadeFile, Stage};
use plan_num::{Ledger, NoMemory, Steps};
use planning_stages::{in_place, make_stage, planning_places, verdict};
use stage_chain::{Finding, Stages};
use std::alloc::Global;
use tables::StageFault;

/// The planning stages in their nine places, from loads to the statistic.
pub(crate) struct Planning;

impl Stages for Planning {
    ghost parts = { planning };

    fn places() -> &'static [Stage] {
        planning_places()
    }

    fn placed(config: &Config, place: Stage) -> Stage {
        in_place(config, place)
    }

    fn make<L: Ledger>(
        alloc: Global,
        bundle: &Bundle,
        steps: &mut Steps<L>,
    ) -> Result<Made, StageFault> {
        make_stage(alloc, bundle, steps)
    }

    fn judge(
        alloc: Global,
        config: &Config,
        bundle: &Bundle,
        there: &[MadeFile],
    ) -> Result<Option<Finding>, NoMemory> {
        verdict(alloc, config, bundle, there)
    }

    ghost laws = { planning_laws };
}
