// A check of the files of a dataset.
ghost use Rattle.std.specs.Prelude.{◌≡◌, IfSome, IfOk};
ghost use Rattle.plan_files.specs.Reads.{OnlyReads};
ghost use Rattle.stage_chain.specs.declared.checked.CheckEnd.TheVariants as ends;
ghost use Rattle.stage_chain.specs.Ends.{has_failed};
ghost use Rattle.stage_driver.specs.BestPlans.{PlansAreBest};
ghost use Rattle.stage_driver.specs.FeasiblePlans.{PlansAreFeasible};
ghost use Rattle.stage_driver.specs.PlanningChain.{IsCheck, PassesIn};
ghost use Rattle.stage_driver.specs.PlansThere.{is_run_in};

use crate::planning::Planning;
use plan_files::Files;
use stage_chain::{ChainFault, CheckOutcome};
use std::alloc::Global;

/// Judges the files of the stages of a dataset over the files that stand there, whoever made them:
/// whether each is what its stage makes of its inputs, or keeps the rules of its kind, and whether
/// each certificate proves what it says. The first rule that is broken ends the check. It changes no
/// file.
pub fn check_chain<F: Files>(alloc: Global, files: &mut F) -> Result<CheckOutcome, ChainFault>
    ensures outcome { IfSome (F.contents files.old) (λ folder. IfOk result (IsCheck folder)) }
    ensures passes { IfSome (F.contents files.old) (λ folder.
        IfOk result (λ outcome. outcome.end ≡ ends.Passed → PassesIn folder)) }
    // Then the plans of the stages that are to run are feasible, and none is better than those with
    // a certificate beside them.
    ensures feasible { IfSome (F.contents files.old) (λ folder.
        IfOk result (λ outcome. outcome.end ≡ ends.Passed →
        PlansAreFeasible (is_run_in folder) folder)) }
    ensures best { IfSome (F.contents files.old) (λ folder.
        IfOk result (λ outcome. outcome.end ≡ ends.Passed →
        PlansAreBest (is_run_in folder) folder)) }
    ensures only_reads { OnlyReads F.contents F.writes F.faults files.old files.new
        (has_failed result) }
{
    stage_chain::check_chain::<Planning, F>(alloc, files)
}
