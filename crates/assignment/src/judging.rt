// The judge of potentials that come with a plan.
ghost use Rattle.std.specs.Prelude.{◌≡◌, true, IfOk};
ghost use Rattle.link_plans.specs.Links.{links_in};
ghost use Rattle.link_plans.specs.Plans.{IsBest};
ghost use Rattle.link_plans.specs.Potentials.{AreValid};

use link_plans::{Assignment, LinkTable, Plan, Potentials};
use plan_num::NoMemory;
use plan_search::are_met;
use std::alloc::Global;

/// Whether potentials prove that a plan gains the most, whoever made both: no link gains more than
/// its two potentials, a link of the plan gains exactly them, and where a trip has no link on a
/// side its potential there is 0. A plan or potentials of another number of trips prove nothing.
pub fn is_proved(
    alloc: Global,
    links: &LinkTable,
    plan: &Plan,
    potentials: &Potentials,
) -> Result<bool, NoMemory>
    ensures valid { IfOk result (λ proved. proved ≡ true
        → AreValid (links_in links.now) plan.now potentials.now) }
    ensures best { IfOk result (λ proved. proved ≡ true → IsBest (links_in links.now) plan.now) }
{
    if plan.len() != links.len() || potentials.len() != links.len() {
        return Ok(false);
    }
    let assignment = Assignment::of_plan(alloc, plan)?;
    Ok(are_met(links, &assignment, potentials))
}
