// The canonical potentials of a plan.
ghost use Rattle.std.specs.Prelude.{◌≡◌, IfOk};
ghost use Rattle.canonical_potentials.specs.Canonical.{AreCanonical};
ghost use Rattle.link_plans.specs.Plans.{IsPlan};
ghost use Rattle.link_plans.specs.Potentials.{AreValid};
ghost use Rattle.canonical_potentials.specs.Rounds.{canonical};
ghost use Rattle.vehicle_model.specs.Trips.{links_of};

use crate::trip_links::links_of_trips;
use assignment::{Plan, Potentials, canonical_potentials};
use plan_num::NoMemory;
use std::alloc::Global;
use vehicle_model::Trips;

/// The canonical potentials of a plan for which some potentials are valid: how far the least costs
/// of walks in its residual graph that end in the two nodes of a trip lie above and below that of
/// the root. They are valid for the plan, and by trips and plan there are no others. Links that
/// gain less than nothing are left out, since they change none of these numbers.
pub fn potentials(
    alloc: Global,
    trips: &Trips,
    plan: &Plan,
    valid: &Potentials,
) -> Result<Potentials, NoMemory>
    requires plan { IsPlan (links_of trips.now) plan.now }
    requires valid { AreValid (links_of trips.now) plan.now valid.now }
    ensures made { IfOk result (λ made. made ≡ canonical (links_of trips.now) plan.now) }
    ensures least { IfOk result (AreCanonical (links_of trips.now) plan.now) }
    ensures valid { IfOk result (AreValid (links_of trips.now) plan.now) }
{
    let table = links_of_trips(alloc, trips)?;
    let made = canonical_potentials(alloc, &table, plan, valid)?;
    Ok(made)
}
