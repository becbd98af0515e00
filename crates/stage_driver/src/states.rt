// What is kept of the planning stages.
ghost use Rattle.std.specs.Prelude.{IfSome, IfOk};
ghost use Rattle.plan_files.specs.Reads.{OnlyReads};
ghost use Rattle.stage_chain.specs.Ends.{has_failed as has_broken};
ghost use Rattle.stage_driver.specs.PlanningChain.{TellsStates};

use crate::planning::Planning;
use plan_files::Files;
use stage_chain::{ChainFault, StatesOutcome};
use std::alloc::Global;

/// Tells of each stage whether its files are those that are kept of it, and whether what is kept is
/// of what it would be given. It changes no file.
pub fn stage_states<F: Files>(alloc: Global, files: &mut F) -> Result<StatesOutcome, ChainFault>
    ensures outcome { IfSome (F.contents files.old) (λ folder.
        IfOk result (TellsStates folder)) }
    ensures only_reads { OnlyReads F.contents F.writes F.faults files.old files.new
        (has_broken result) }
{
    stage_chain::stage_states::<Planning, F>(alloc, files)
}
