// The canonical potentials of a plan.
ghost use Rattle.std.specs.Prelude.{◌≡◌, IfOk};
ghost use Rattle.canonical_potentials.specs.Canonical.{AreCanonical};
ghost use Rattle.link_plans.specs.Potentials.{AreValid};
ghost use Rattle.canonical_potentials.specs.Rounds.{canonical};
ghost use Rattle.link_plans.specs.Plans.{IsPlan};
ghost use Rattle.link_plans.specs.Links.{links_in};

use crate::drops::Drops;
use crate::linked_plan::LinkedPlan;
use link_plans::{LinkTable, Plan, Potentials};
use plan_num::NoMemory;
use std::alloc::Global;

/// The canonical potentials of a plan for which some potentials are valid: how far the least costs
/// of walks in its residual graph that end in the two nodes of a trip lie above and below that of
/// the root. They are valid for the plan, and by links and plan there are no others. One walk
/// along the valid ones finds them, and one round over all arcs finds no better walk; both leave
/// out links that gain less than nothing.
pub fn canonical_potentials(
    alloc: Global,
    trips: &LinkTable,
    plan: &Plan,
    valid: &Potentials,
) -> Result<Potentials, NoMemory>
    requires plan { IsPlan (links_in trips.now) plan.now }
    requires valid { AreValid (links_in trips.now) plan.now valid.now }
    ensures made { IfOk result (λ made. made ≡ canonical (links_in trips.now) plan.now) }
    ensures least { IfOk result (AreCanonical (links_in trips.now) plan.now) }
    ensures valid { IfOk result (AreValid (links_in trips.now) plan.now) }
{
    let linked = LinkedPlan::new(alloc, plan)?;
    let mut drops = Drops::new(alloc, trips.len())?;
    drops.walk(alloc, trips, &linked, valid)?;
    drops.pass_to_end(trips, &linked);
    drops.into_potentials(alloc, trips, &linked)
}
