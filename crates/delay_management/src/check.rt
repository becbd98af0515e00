// The test of a disposition.
ghost use Rattle.std.specs.Prelude.{◌≡◌, None, IfOk, IfNone};
ghost use Rattle.giv_files.specs.declared.stage.Stage.TheVariants as stages;
ghost use Rattle.tables.specs.Inputs.{UnlessFault};
ghost use Rattle.giv_files.specs.Settings.{Fits};
ghost use Rattle.delay_management.specs.DispositionStage.{disposition_faults, kept_in, problem_in};
ghost use Rattle.delay_management.specs.Judged.{Passes, first_broken_rule};

use crate::bundle_problem::problem_of_bundle;
use crate::fault::ReasonFault;
use crate::judge::first_fault;
use crate::stage::wait_of;
use giv_files::Bundle;
use propagation::waiting_changes;
use std::alloc::Global;
use tables::StageFault;

/// The first rule that the texts of times and of their reasons break, over the inputs of the
/// stage; none exactly where they pass, and then no feasible times are earlier at any event.
/// Refused is only what these inputs are refused for.
pub fn check_reasons(
    alloc: Global,
    bundle: &Bundle,
    times: &[u8],
    reasons: &[u8],
) -> Result<Option<ReasonFault>, StageFault>
    requires stage { bundle.now.stage ≡ stages.Disposition }
    requires fits { Fits bundle.now }
    ensures first { UnlessFault (disposition_faults bundle.now) (λ answer.
        answer ≡ first_broken_rule (problem_in bundle.now) (kept_in bundle.now) times.now
        reasons.now) result }
    ensures passes { IfOk result
        (λ answer. IfNone answer (Passes bundle.now times.now reasons.now)) }
    ensures only { IfOk result
        (λ answer. Passes bundle.now times.now reasons.now → answer ≡ None) }
{
    let problem = problem_of_bundle(alloc, bundle)?;
    let kept = waiting_changes(alloc, &problem, wait_of(bundle))?;
    Ok(first_fault(alloc, &problem, &kept, times, reasons)?)
}
