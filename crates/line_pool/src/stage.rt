// The stage that writes what the lines of a pool cost.
ghost use Rattle.std.specs.Prelude.{◌≡◌, IfOk};
ghost use Rattle.giv_files.specs.declared.stage.Stage.TheVariants as stages;
ghost use Rattle.giv_files.specs.Settings.{Fits};
ghost use Rattle.giv_files.specs.StageCalls.{StageGives, TakesSteps};
ghost use Rattle.line_pool.specs.CostStage.{cost_stage};
ghost use Rattle.line_pool.specs.RightCosts.{CostsAreRight};

use crate::cost_table::costs_of_pool;
use giv_files::{Bundle, Made};
use line_walks::Pool;
use plan_num::{Ledger, Steps};
use ptn_network::Network;
use std::alloc::Global;
use tables::StageFault;

/// The costs of the lines of a pool, from the settings and the texts of stops, edges and the pool.
/// It takes one step.
pub fn make_cost<L: Ledger>(
    alloc: Global,
    bundle: &Bundle,
    steps: &mut Steps<L>,
) -> Result<Made, StageFault>
    requires stage { bundle.now.stage ≡ stages.Cost }
    requires fits { Fits bundle.now }
    ensures made { StageGives (cost_stage bundle.now) result }
    ensures right { IfOk result (λ made. CostsAreRight bundle.now made) }
    ensures steps { TakesSteps 1 steps.old steps.new result }
{
    steps.tick();
    costs_of_bundle(alloc, bundle)
}

// What the stage gives.
fn costs_of_bundle(alloc: Global, bundle: &Bundle) -> Result<Made, StageFault>
    requires stage { bundle.now.stage ≡ stages.Cost }
    requires fits { Fits bundle.now }
    ensures { StageGives (cost_stage bundle.now) result }
{
    let network = Network::from_texts(alloc, bundle.input(0), bundle.input(1))?;
    let pool = Pool::from_text(alloc, &network, bundle.input(2))?;
    Ok(costs_of_pool(alloc, bundle.settings(), &network, &pool)?)
}
