// The test of a waiting decision.
ghost use Rattle.std.specs.Prelude.{◌≡◌, ◌≤◌, IfOk, IfNone, None};
ghost use Rattle.giv_files.specs.declared.stage.Stage.TheVariants as stages;
ghost use Rattle.tables.specs.Inputs.{UnlessFault};
ghost use Rattle.giv_files.specs.Settings.{Fits};
ghost use Rattle.delay_management.specs.DispositionStage.{disposition_faults, problem_in};
ghost use Rattle.wait_choice.specs.Judged.{KeepsBest, Passes, first_broken_rule};

use crate::judge::first_broken_rule;
use crate::rule::WaitRule;
use delay_management::problem_of_bundle;
use giv_files::Bundle;
use std::alloc::Global;
use tables::StageFault;

/// The first rule that the text of a waiting decision breaks at a penalty in minutes, over the inputs
/// of the stage of dispositions; none exactly where it passes, and then, where it has a tree, no
/// waiting decision costs less. Refused is only what these inputs are refused for.
pub fn check_waits(
    alloc: Global,
    bundle: &Bundle,
    penalty: u32,
    text: &[u8],
) -> Result<Option<WaitRule>, StageFault>
    requires stage { bundle.now.stage ≡ stages.Disposition }
    requires fits { Fits bundle.now }
    ensures first { UnlessFault (disposition_faults bundle.now) (λ answer.
        answer ≡ first_broken_rule (problem_in bundle.now) penalty text.now) result }
    ensures passes { IfOk result
        (λ answer. IfNone answer (Passes (problem_in bundle.now) penalty text.now)) }
    ensures only { IfOk result
        (λ answer. Passes (problem_in bundle.now) penalty text.now → answer ≡ None) }
    ensures best { IfOk result
        (λ answer. IfNone answer (KeepsBest (problem_in bundle.now) penalty text.now)) }
{
    let problem = problem_of_bundle(alloc, bundle)?;
    Ok(first_broken_rule(alloc, &problem, penalty, text)?)
}
