// The stage of dispositions.
ghost use Rattle.std.specs.Prelude.{◌≡◌, IfOk};
ghost use Rattle.giv_files.specs.declared.stage.Stage.TheVariants as stages;
ghost use Rattle.giv_files.specs.Settings.{Fits};
ghost use Rattle.giv_files.specs.StageCalls.{StageGives, TakesSteps};
ghost use Rattle.delay_management.specs.DispositionStage.{disposition_stage};
ghost use Rattle.delay_management.specs.RightDispositions.{DispositionIsRight};
ghost use Rattle.delay_management.specs.WaitSettings.{wait_of};

use crate::bundle_problem::problem_of_bundle;
use crate::files::disposition_made;
use giv_files::{Bundle, Key, Made};
use plan_num::{Ledger, Steps};
use propagation::{canonical_reasons, waiting_changes};
use std::alloc::Global;
use tables::StageFault;

/// Makes the disposition of the inputs of the stage, which is the least feasible vector of times
/// (Schöbel 2006 states the problem), and a reason for the time of each event.
pub fn make_disposition<L: Ledger>(
    alloc: Global,
    bundle: &Bundle,
    steps: &mut Steps<L>,
) -> Result<Made, StageFault>
    requires stage { bundle.now.stage ≡ stages.Disposition }
    requires fits { Fits bundle.now }
    ensures made { StageGives (disposition_stage bundle.now) result }
    ensures right { IfOk result (DispositionIsRight bundle.now) }
    ensures steps { TakesSteps 1 steps.old steps.new result }
{
    steps.tick();
    disposed(alloc, bundle)
}

// What the stage gives.
fn disposed(alloc: Global, bundle: &Bundle) -> Result<Made, StageFault>
    requires stage { bundle.now.stage ≡ stages.Disposition }
    requires fits { Fits bundle.now }
    ensures { StageGives (disposition_stage bundle.now) result }
{
    let problem = problem_of_bundle(alloc, bundle)?;
    let kept = waiting_changes(alloc, &problem, wait_of(bundle))?;
    let times = problem.least_times(alloc, &kept)?;
    let reasons = canonical_reasons(alloc, &problem, &kept, &times)?;
    Ok(disposition_made(alloc, &problem, &times, &reasons)?)
}

/// How long departures wait in a bundle of the stage: so many minutes, for all changes (-1), or for
/// none (-2).
pub(crate) fn wait_of(bundle: &Bundle) -> i64
    ensures { result ≡ wait_of bundle.now.settings }
{
    bundle.settings().value(Key::DmWait).unwrap_or(0)
}
