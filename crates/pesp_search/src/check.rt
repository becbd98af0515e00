// The test of a timetable.
ghost use Rattle.std.specs.Prelude.{◌≡◌, IfOk, IfNone};
ghost use Rattle.giv_files.specs.declared.stage.Stage.TheVariants as stages;
ghost use Rattle.tables.specs.Inputs.{UnlessFault};
ghost use Rattle.giv_files.specs.Settings.{Fits};
ghost use Rattle.pesp_search.specs.Judged.{Passes, first_broken_rule};
ghost use Rattle.pesp_search.specs.TimetableStage.{problem_in, timetable_faults};

use crate::fault::TimetableFault;
use crate::judge::first_fault;
use crate::stage::{period_of, read_pesp};
use giv_files::Bundle;
use std::alloc::Global;
use tables::StageFault;

/// The first rule that the text of a timetable breaks, over the inputs of the search; none where
/// the timetable passes. Refused is only what these inputs are refused for.
pub fn check_timetable(
    alloc: Global,
    bundle: &Bundle,
    times: &[u8],
) -> Result<Option<TimetableFault>, StageFault>
    requires stage { bundle.now.stage ≡ stages.Timetable }
    requires fits { Fits bundle.now }
    ensures first { UnlessFault (timetable_faults bundle.now)
        (λ answer. answer ≡ first_broken_rule (problem_in bundle.now) times.now) result }
    ensures passes { IfOk result
        (λ answer. IfNone answer (Passes (problem_in bundle.now) times.now)) }
{
    let pesp = read_pesp(alloc, bundle)?;
    Ok(first_fault(alloc, &pesp, period_of(bundle), times)?)
}
