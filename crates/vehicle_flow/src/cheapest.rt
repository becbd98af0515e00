// The search for a plan of least cost.
ghost use Rattle.std.specs.Prelude.{◌≡◌, IfOk};
ghost use Rattle.link_plans.specs.Links.{links_in};
ghost use Rattle.link_plans.specs.LinkRows.{worthy};
ghost use Rattle.link_plans.specs.Plans.{IsPlan};
ghost use Rattle.link_plans.specs.Potentials.{AreValid};
ghost use Rattle.vehicle_model.specs.Plans.{IsCheapest};
ghost use Rattle.vehicle_model.specs.Trips.{links_of};

use assignment::{LinkTable, Solved, best_plan};
use flow_potentials::links_of_trips;
use plan_num::NoMemory;
use std::alloc::Global;
use vehicle_model::Trips;

/// A plan of least cost, and potentials that are valid for it. Which plan of least cost it is is
/// left open.
pub fn cheapest_plan(alloc: Global, trips: &Trips) -> Result<Solved, NoMemory>
    ensures plan { IfOk result (λ solved. IsPlan (links_of trips.now) solved.plan) }
    ensures valid { IfOk result (λ solved.
        AreValid (links_of trips.now) solved.plan solved.potentials) }
    ensures cheapest { IfOk result (λ solved. IsCheapest trips.now solved.plan) }
{
    let links = links_of_trips(alloc, trips)?;
    cheapest_of(alloc, trips, &links)
}

/// The same from the links between the trips. Trips that end last come first, since then a trip
/// finds its successor mostly among places that nobody could take before.
pub(crate) fn cheapest_of(
    alloc: Global,
    trips: &Trips,
    links: &LinkTable,
) -> Result<Solved, NoMemory>
    requires { links_in links.now ≡ worthy (links_of trips.now) }
    ensures plan { IfOk result (λ solved. IsPlan (links_of trips.now) solved.plan) }
    ensures valid { IfOk result (λ solved.
        AreValid (links_of trips.now) solved.plan solved.potentials) }
    ensures cheapest { IfOk result (λ solved. IsCheapest trips.now solved.plan) }
{
    let order = by_ends(alloc, trips)?;
    let solved = best_plan(alloc, links, &order)?;
    Ok(solved)
}

// When a trip ends.
#[derive(Clone, Copy)]
struct Ending {
    time: u32,
    trip: usize,
}

// All trips, by their ends.
fn by_ends(alloc: Global, trips: &Trips) -> Result<Vec<usize>, NoMemory> {
    let mut endings = Vec::new(alloc);
    for trip in 0..trips.len() {
        endings.push(Ending {
            time: trips.trip(trip).end.time,
            trip,
        })?;
    }
    endings.sort_unstable_by_key(|ending| ending.time);
    trips_of(alloc, &endings)
}

// The trips of some endings.
fn trips_of(alloc: Global, endings: &[Ending]) -> Result<Vec<usize>, NoMemory> {
    let mut order = Vec::new(alloc);
    for ending in endings {
        order.push(ending.trip)?;
    }
    Ok(order)
}
