// What a call refuses.
ghost use Rattle.std.specs.Prelude.{◌≡◌, false};
ghost use Rattle.stage_chain.specs.Ends.{is_broken};
ghost use Rattle.plan_queries.specs.Queries.{end_of_fault};

use giv_files::Stage;
use stage_chain::{Cause, ChainEnd};
use tables::StageFault;

/// What the fault of a call over what a stage is given ends.
pub(crate) fn end_of_fault(stage: Stage, fault: StageFault) -> ChainEnd
    ensures { result ≡ end_of_fault stage fault }
{
    match fault {
        StageFault::Refused(refusal) => ChainEnd::Stopped(Cause::Refused(stage, refusal)),
        StageFault::NoMemory => ChainEnd::NoMemory,
    }
}
