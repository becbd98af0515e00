// Dead minutes between trips, looked up by their stops.
ghost use Rattle.std.specs.Prelude.{List, option_map, unsigned_abs, ◌≡◌, ◌<◌, ◌≤◌, pos, true};
ghost use Rattle.std.specs.Prelude.{length, map, nat_eq, get_or, Some, All, IfOk, IfSome};
ghost use Rattle.std.specs.List.{list_any};
ghost use Rattle.event_tables.specs.Trips.{is_stop, AreTrips};
ghost use Rattle.event_tables.specs.declared.trip.Trip.{Trip};
ghost use Rattle.walks.specs.Networks.{NetworkParts};
ghost use Rattle.walks.specs.RisingIds.{index_in};
ghost use Rattle.walks.specs.Walks.{IsSumUpTo};
ghost use Rattle.vehicle_model.specs.DeadTables.{HasWanted, HasAll, IsDeadTable, IsSomeTable};
ghost use Rattle.vehicle_model.specs.DeadTables.{AreDeadMinutes};

use event_tables::Trip;
use plan_num::NoMemory;
use ptn_network::{Network, Reach};
use std::alloc::Global;
use std::marker::Model;

/// The stops where trips start and end, by their indexes, and the least times from each stop where a
/// trip ends.
pub(crate) struct DeadTimes {
    starts: Vec<usize>,
    ends: Vec<usize>,
    times: Vec<Option<Reach>>,
}

impl Drop for DeadTimes {
    fn drop(self) {
        let DeadTimes {
            starts: _,
            ends: _,
            times: _,
        } = self;
    }
}

impl Model for DeadTimes {
    ghost use Rattle.vehicle_model.specs.DeadTables.{DeadTable};

    ghost Value = { DeadTable };

    ghost view = { λ table. record {
      starts = table.starts.items;
      ends = table.ends.items;
      times = table.times.items;
    } };
}

impl DeadTimes {
    /// The table of trips over a network.
    pub(crate) fn new(
        alloc: Global,
        network: &Network,
        trips: &[Trip],
    ) -> Result<DeadTimes, NoMemory>
        requires { AreTrips (Some network.now.stops) trips.now }
        ensures { IfOk result (IsDeadTable network.now trips.now) }
    {
        let mut starts = Vec::new(alloc);
        let mut ends = Vec::new(alloc);
        for trip in trips {
            starts.push(stop_index(network, trip.start.stop))?;
            ends.push(stop_index(network, trip.end.stop))?;
        }
        let times = times_from(alloc, network, &ends)?;
        Ok(DeadTimes {
            starts,
            ends,
            times,
        })
    }
    /// The dead minutes from a trip to another, by their numbers.
    pub(crate) fn minutes(&self, i: usize, j: usize) -> Option<u64>
        requires from { i < length self.now.ends }
        requires to { j < length self.now.starts }
        requires table { IsSomeTable self.now }
        ensures value { (network : NetworkParts) (trips : List Trip)
            → IsDeadTable network trips self.now → AreDeadMinutes network trips i j result }
        ensures small { IfSome result (λ minutes. minutes ≤ 10000000000000) }
    {
        let from = self.ends[i];
        let to = self.starts[j];
        match &self.times[from] {
            Some(reach) => minutes_of(reach.at(to)),
            None => None,
        }
    }
}

// Minutes without their sign.
fn minutes_of(minutes: Option<i64>) -> Option<u64>
    requires { IfSome minutes (IsSumUpTo 10000000000000) }
    ensures value { result ≡ option_map unsigned_abs minutes }
    ensures small { IfSome result (λ minutes. minutes ≤ 10000000000000) }
{
    match minutes {
        Some(minutes) => Some(minutes.unsigned_abs()),
        None => None,
    }
}

// The index of the stop of an id.
fn stop_index(network: &Network, id: u32) -> usize
    requires { is_stop network.now.stops id ≡ true }
    ensures index { result ≡ index_in network.now.stops (pos id) }
    ensures within { result < length network.now.stops }
{
    network.stop_index(i64::from(id)).unwrap_or(0)
}

// The least times from each stop of a network that is wanted, at their indexes.
fn times_from(
    alloc: Global,
    network: &Network,
    wanted: &[usize],
) -> Result<Vec<Option<Reach>>, NoMemory>
    requires { All (λ stop. stop < length network.now.stops) wanted.now }
    ensures size { IfOk result (λ times. length times.items ≡ length network.now.stops) }
    ensures times { IfOk result (λ times. HasAll network.now wanted.now times.items) }
{
    let mut times = Vec::new(alloc);
    for stop in 0..network.stop_count() {
        times.push(times_if(alloc, network, is_wanted(wanted, stop), stop)?)?;
    }
    Ok(times)
}

// The least times from a stop, where they are wanted.
fn times_if(
    alloc: Global,
    network: &Network,
    is_wanted: bool,
    stop: usize,
) -> Result<Option<Reach>, NoMemory>
    requires { stop < length network.now.stops }
    ensures { IfOk result (HasWanted network.now stop is_wanted) }
{
    if is_wanted {
        Ok(Some(network.least_times(alloc, stop)?))
    } else {
        Ok(None)
    }
}

// Whether times from a stop are wanted.
fn is_wanted(wanted: &[usize], stop: usize) -> bool
    ensures { result ≡ list_any (nat_eq stop) wanted.now }
{
    wanted.iter().any(|other| stop == *other)
}
