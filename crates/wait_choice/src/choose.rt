// The choice of a waiting decision.
ghost use Rattle.std.specs.Prelude.{◌≡◌, ◌≤◌, Some, IfOk};
ghost use Rattle.giv_files.specs.declared.stage.Stage.TheVariants as stages;
ghost use Rattle.tables.specs.Inputs.{UnlessFault};
ghost use Rattle.giv_files.specs.Settings.{Fits};
ghost use Rattle.giv_files.specs.StageCalls.{TakesSteps};
ghost use Rattle.delay_management.specs.DispositionStage.{problem_in};
ghost use Rattle.waiting_decisions.specs.Budgets.{FindsSome, IsEnough};
ghost use Rattle.wait_choice.specs.ChoiceStage.{IsUnspent, IsWhole, outcome_of, waits_in, waits_refusals, waits_work};
ghost use Rattle.waiting_decisions.specs.RightChoices.{IsRight};
ghost use Rattle.waiting_decisions.specs.RightListings.{IsListed};

use delay_management::problem_of_bundle;
use giv_files::Bundle;
use plan_num::{Ledger, Steps};
use std::alloc::Global;
use tables::{Refusal, StageFault};
use waiting_decisions::{Waits, search_waits};

/// Chooses which changes of a day are kept, so that the delay of all arrivals and a penalty in
/// minutes for each change that is dropped are least together, by a search with so many entries at
/// most.
pub fn choose_waits<L: Ledger>(
    alloc: Global,
    bundle: &Bundle,
    penalty: u32,
    budget: u32,
    steps: &mut Steps<L>,
) -> Result<Waits, StageFault>
    requires stage { bundle.now.stage ≡ stages.Disposition }
    requires fits { Fits bundle.now }
    requires penalty { penalty ≤ 1000000 }
    requires some { 1 ≤ budget }
    requires budget { budget ≤ 20000 }
    ensures chosen { UnlessFault (waits_refusals bundle.now penalty budget)
        (λ waits. waits_in bundle.now penalty budget ≡ Some waits) result }
    ensures right { IfOk result (IsRight (problem_in bundle.now) penalty) }
    ensures listed { IfOk result (IsListed (problem_in bundle.now) penalty budget) }
    ensures finds { FindsSome (problem_in bundle.now) budget → IsUnspent result }
    ensures whole { IsEnough (problem_in bundle.now) budget → IsWhole result }
    ensures steps { TakesSteps (waits_work bundle.now penalty budget) steps.old steps.new result }
{
    steps.tick();
    let problem = problem_of_bundle(alloc, bundle)?;
    let found = search_waits(alloc, &problem, penalty, budget, steps)?;
    found_or_spent(found, budget)
}

// What was found, or that the budget is spent.
fn found_or_spent(found: Option<Waits>, budget: u32) -> Result<Waits, StageFault>
    ensures { result ≡ outcome_of budget found }
{
    found.ok_or(StageFault::Refused(Refusal::Spent {
        entries: u64::from(budget),
    }))
}
