// The links between trips that are worth something.
ghost use Rattle.std.specs.Prelude.{◌≡◌, ◌<◌, ◌≤◌, true, length, None, IfOk, IfSome, OnOk};
ghost use Rattle.link_plans.specs.Links.{links_in};
ghost use Rattle.link_plans.specs.LinkRows.{and_link, worth, worthy, IsRow};
ghost use Rattle.vehicle_model.specs.Trips.{AreTrips, links_of};

use assignment::{Link, LinkTable};
use plan_num::NoMemory;
use std::alloc::Global;
use vehicle_model::Trips;

/// The links between trips that gain no less than nothing.
pub fn links_of_trips(alloc: Global, trips: &Trips) -> Result<LinkTable, NoMemory>
    ensures links { IfOk result (λ table. links_in table ≡ worthy (links_of trips.now)) }
    ensures trips { AreTrips trips.now }
{
    let mut rows = Vec::new(alloc);
    for trip in 0..trips.len() {
        rows.push(row_of(alloc, trips, trip)?)?;
    }
    Ok(LinkTable::of_rows(rows))
}

// The links of a trip that gain no less than nothing.
fn row_of(alloc: Global, trips: &Trips, from: usize) -> Result<Vec<Link>, NoMemory>
    requires { from < length trips.now.trips }
    ensures { IfOk result (λ row.
        IsRow (links_of trips.now) from (length trips.now.trips) row.items) }
{
    let mut row = Vec::with_capacity(alloc, trips.len())?;
    for to in 0..trips.len() {
        push_if_worth(&mut row, to, worth(trips, from, to))?;
    }
    row.shrink_to_fit();
    Ok(row)
}

// Adds a link, where it is worth something.
fn push_if_worth(row: &mut Vec<Link>, to: usize, worth: Option<u64>) -> Result<(), NoMemory>
    ensures { OnOk result
        (row.new.items ≡ and_link row.old.items to worth) }
{
    if let Some(gain) = worth {
        row.push(Link { to, gain })?;
    }
    Ok(())
}

// What the link from a trip to another gains, where this is not less than nothing.
fn worth(trips: &Trips, i: usize, j: usize) -> Option<u64>
    requires from { i < length trips.now.trips }
    requires to { j < length trips.now.trips }
    ensures value { result ≡ worth ((links_of trips.now).gain i j) }
    ensures small { IfSome result (λ gain. gain ≤ 1000000000000) }
{
    trips.are_trips();
    if is_late(trips, i, j) {
        return None;
    }
    match trips.link_gain(i, j) {
        Some(gain) => { if gain < 0 { None } else { Some(gain as u64) } }
        None => None,
    }
}

// Whether a trip starts before another one has ended, so that it cannot follow it.
#[tactic(auto, using(crate::proofs::Late::late_gain))]
fn is_late(trips: &Trips, i: usize, j: usize) -> bool
    requires from { i < length trips.now.trips }
    requires to { j < length trips.now.trips }
    ensures { result ≡ true → (links_of trips.now).gain i j ≡ None }
{
    trips.trip(j).start.time < trips.trip(i).end.time
}
