// The stages of a chain.
ghost use Rattle.std.specs.Prelude.{◌≡◌, IfOk, IfNone};
ghost use Rattle.giv_files.specs.MadeLists.{MakesAs, ids_of};
ghost use Rattle.giv_files.specs.Settings.{Fits};
ghost use Rattle.giv_files.specs.StageCalls.{StageGives, TakesSteps};
ghost use Rattle.stage_chain.specs.Chain.{stage_place};
ghost use Rattle.stage_chain.specs.Laws.{AreStages};
ghost use Rattle.stage_chain.specs.StageParts.{StageParts, staged};

use crate::finding::Finding;
use config_keys::Config;
use giv_files::{Bundle, Made, MadeFile, Stage};
use plan_num::{Ledger, NoMemory, Steps};
use std::alloc::Global;
use tables::StageFault;

/// The stages of a chain: its places in their order, which stage runs in each under the settings of
/// a dataset, what each makes of what it is given, and the judge of files that stand in the place of
/// those that it makes.
///
/// The laws say what a chain relies on: each stage takes what those before it make, makes files that
/// are right, and refuses no row of a file but those that people write.
pub trait Stages {
    ghost parts: { StageParts };

    /// The places in the order in which they run, each by the stage that runs there where the
    /// settings say nothing else.
    fn places() -> &'static [Stage]
        ensures { result.now ≡ parts.places };

    /// The stage that runs in a place under the settings of a dataset.
    fn placed(config: &Config, place: Stage) -> Stage
        ensures { result ≡ parts.placed config.now place };

    /// Makes what the stage of a bundle makes of it.
    fn make<L: Ledger>(
        alloc: Global,
        bundle: &Bundle,
        steps: &mut Steps<L>,
    ) -> Result<Made, StageFault>
        requires { Fits bundle.now }
        ensures made { StageGives (parts.run bundle.now) result }
        ensures steps { TakesSteps (parts.work bundle.now) steps.old steps.new result };

    /// What is found, under the settings of a dataset, of the files of a place over what the place
    /// is given.
    fn judge(
        alloc: Global,
        config: &Config,
        bundle: &Bundle,
        there: &[MadeFile],
    ) -> Result<Option<Finding>, NoMemory>
        requires fits { Fits bundle.now }
        ensures found { IfOk result (λ found.
            found ≡ parts.verdict config.now bundle.now there.now) }
        ensures passes { MakesAs (parts.placed config.now bundle.now.stage) (ids_of there.now)
            → IfOk result (λ found.
            IfNone found (parts.Satisfies config.now bundle.now there.now)) };

    ghost laws: { AreStages parts };
}

/// The place of a stage in the order of places.
pub(crate) fn place_of(stage: Stage) -> usize
    ensures { result ≡ stage_place stage }
{
    stage.row().place.place()
}

/// The stages that run in the places under the settings of a dataset.
pub(crate) fn staged<S: Stages>(alloc: Global, config: &Config) -> Result<Vec<Stage>, NoMemory>
    ensures { IfOk result (λ stages. stages.items ≡ staged S.parts config.now) }
{
    let mut stages = Vec::new(alloc);
    for place in S::places() {
        stages.push(S::placed(config, *place))?;
    }
    Ok(stages)
}
