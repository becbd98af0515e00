// Trips over a network.
ghost use Rattle.std.specs.Prelude.{ℕ, ◌≡◌, ◌≤◌, ◌<◌, ◌↔◌, ◌+◌, ◌*◌, ◌≤ℤ◌, pos, neg_ℤ, true};
ghost use Rattle.std.specs.Prelude.{length, map, position, is_some, unsigned_abs, Some, IfOk};
ghost use Rattle.std.specs.Prelude.{IfSome};
ghost use Rattle.event_tables.specs.Trips.{AreTrips as AreTripRows};
ghost use Rattle.tables.specs.Inputs.{UnlessFault};
ghost use Rattle.walks.specs.Networks.{IsNetwork};
ghost use Rattle.walks.specs.Walks.{edge_time, IsLeastSum};
ghost use Rattle.vehicle_model.specs.ReadSchedules.{same_run, trip_in};
ghost use Rattle.vehicle_model.specs.Schedules.{trip_of, dead_between};
ghost use Rattle.vehicle_model.specs.Trips.{trips_of, trips_faults, link_minutes, links_of};
ghost use Rattle.vehicle_model.specs.Trips.{gain_of, if_in_time, start_stop, end_stop, MayFollow};
ghost use Rattle.vehicle_model.specs.Trips.{AreTrips};

use crate::dead_times::DeadTimes;
use crate::row_form::{is_empty_row, same_run};
use event_tables::{ScheduleRow, Trip};
use plan_num::NoMemory;
use ptn_network::Network;
use std::alloc::Global;
use std::marker::Model;
use tables::StageFault;

/// Trips over a network, the minutes of a turnover, and what a vehicle and a dead minute cost, in
/// millionths. Contracts see it as these. A trip is its number from 0.
pub struct Trips {
    network: Network,
    rows: Vec<Trip>,
    dead: DeadTimes,
    turnover: u64,
    vehicle: u64,
    empty: u64,
}

impl Drop for Trips {
    fn drop(self) {
        let Trips {
            network: _,
            rows: _,
            dead: _,
            turnover: _,
            vehicle: _,
            empty: _,
        } = self;
    }
}

impl Model for Trips {
    ghost use Rattle.vehicle_model.specs.DeadTables.{IsDeadTable};
    ghost use Rattle.vehicle_model.specs.Trips.{TripsParts, AreTrips};

    ghost Value = { TripsParts };

    ghost view = { λ trips. record {
      network = trips.network;
      trips = trips.rows.items;
      turnover = trips.turnover;
      vehicle = trips.vehicle;
      empty = trips.empty;
    } };

    ghost invariant = { λ trips. AreTrips (record {
      network = trips.network;
      trips = trips.rows.items;
      turnover = trips.turnover;
      vehicle = trips.vehicle;
      empty = trips.empty;
    }) × IsDeadTable trips.network trips.rows.items trips.dead };
}

impl Trips {
    /// The trips of the texts of stops, of edges and of trips, or the first fault of the texts. A
    /// turnover is in minutes, and the costs of a vehicle and of a dead minute are in millionths.
    pub fn from_texts(
        alloc: Global,
        stops: &[u8],
        edges: &[u8],
        trips: &[u8],
        turnover: i64,
        vehicle: i64,
        empty: i64,
    ) -> Result<Trips, StageFault>
        requires turnover { (pos 0 ≤ℤ turnover) × (turnover ≤ℤ pos 10000) }
        requires vehicle { (pos 0 ≤ℤ vehicle) × (vehicle ≤ℤ pos 1000000000000) }
        requires empty { (pos 0 ≤ℤ empty) × (empty ≤ℤ pos 1000000000000) }
        ensures { UnlessFault (trips_faults stops.now edges.now trips.now)
            (λ made. made ≡ trips_of stops.now edges.now trips.now (unsigned_abs turnover)
            (unsigned_abs vehicle) (unsigned_abs empty)) result }
    {
        let network = Network::from_texts(alloc, stops, edges)?;
        let ids = stop_ids(alloc, &network)?;
        let rows = event_tables::trips(alloc, Some(&ids), trips)?;
        let dead = DeadTimes::new(alloc, &network, &rows)?;
        Ok(Trips {
            network,
            rows,
            dead,
            turnover: turnover.unsigned_abs(),
            vehicle: vehicle.unsigned_abs(),
            empty: empty.unsigned_abs(),
        })
    }

    /// Tells that these are trips, which are few and whose numbers are in their ranges. A proof
    /// alone needs it, so it does nothing.
    pub fn are_trips(&self)
        ensures { AreTrips self.now }
    {
        let _rows = &self.rows;
    }

    /// How many trips there are.
    pub fn len(&self) -> usize
        ensures count { result ≡ length self.now.trips }
        ensures trips { AreTrips self.now }
    {
        self.rows.len()
    }

    /// Whether a trip may follow another one: there is time for a turnover and for the least of all
    /// walks from the stop where the one ends to the stop where the other starts.
    pub fn may_follow(&self, i: usize, j: usize) -> bool
        requires from { i < length self.now.trips }
        requires to { j < length self.now.trips }
        ensures link { result ≡ is_some (link_minutes self.now i j) }
        ensures follows { (result ≡ true) ↔ ((minutes : ℕ) × MayFollow self.now i j minutes) }
    {
        self.link_minutes(i, j).is_some()
    }

    /// What the link from a trip to one that may follow it gains, in millionths: a vehicle, less the
    /// dead minutes.
    pub fn gain(&self, i: usize, j: usize) -> i128
        requires { is_some (link_minutes self.now i j) ≡ true }
        ensures gain { (links_of self.now).gain i j ≡ Some result }
        ensures told { (minutes : ℕ) × (MayFollow self.now i j minutes × (result ≡ gain_of self.now minutes)) }
        ensures low { neg_ℤ (pos 10000000000000000000000000) ≤ℤ result }
        ensures high { result ≤ℤ pos self.now.vehicle }
    {
        match self.link_minutes(i, j) {
            Some(minutes) => self.gain_of(minutes),
            None => 0,
        }
    }

    /// The same for any two trips; none where the second may not follow the first.
    pub fn link_gain(&self, i: usize, j: usize) -> Option<i128>
        requires from { i < length self.now.trips }
        requires to { j < length self.now.trips }
        ensures { result ≡ (links_of self.now).gain i j }
    {
        match self.link_minutes(i, j) {
            Some(minutes) => Some(self.gain_of(minutes)),
            None => None,
        }
    }

    /// The dead minutes of the link between two trips, where the second may follow the first.
    pub fn link_minutes(&self, i: usize, j: usize) -> Option<u64>
        requires from { i < length self.now.trips }
        requires to { j < length self.now.trips }
        ensures value { result ≡ link_minutes self.now i j }
        ensures follows { IfSome result (MayFollow self.now i j) }
        ensures all { (minutes : ℕ) → MayFollow self.now i j minutes → result ≡ Some minutes }
        ensures small { IfSome result (λ minutes. minutes ≤ 10000000000000) }
    {
        match self.dead_minutes(i, j) {
            Some(minutes) => self.if_in_time(i, j, minutes),
            None => None,
        }
    }

    /// The dead minutes from a trip to another; none where no walk joins their stops.
    pub fn dead_minutes(&self, i: usize, j: usize) -> Option<u64>
        requires from { i < length self.now.trips }
        requires to { j < length self.now.trips }
        ensures value { result ≡ dead_between self.now i j }
        ensures least { IsLeastSum self.now.network.edges edge_time
            (end_stop self.now.network (trip_of self.now i))
            (start_stop self.now.network (trip_of self.now j)) result }
        ensures small { IfSome result (λ minutes. minutes ≤ 10000000000000) }
    {
        self.dead.minutes(i, j)
    }

    /// The row of a trip.
    pub fn trip(&self, i: usize) -> Trip
        requires { i < length self.now.trips }
        ensures { result ≡ trip_of self.now i }
    {
        self.rows[i]
    }

    /// The number of the trip that a row of a schedule repeats.
    pub(crate) fn number_of(&self, row: &ScheduleRow) -> Option<usize>
        ensures value { result ≡ trip_in self.now row.now }
        ensures within { IfSome result (λ i. i < length self.now.trips) }
    {
        if is_empty_row(row) {
            None
        } else {
            self.number_of_run(&row.run)
        }
    }

    // The number of a trip.
    fn number_of_run(&self, run: &Trip) -> Option<usize>
        ensures value { result ≡ position (same_run run.now) self.now.trips }
        ensures within { IfSome result (λ i. i < length self.now.trips) }
    {
        self.rows.iter().position(|trip| same_run(run, trip))
    }

    /// What so many vehicles and dead minutes cost, in millionths.
    pub fn cost_of(&self, vehicles: usize, minutes: u64) -> i128
        requires few { vehicles ≤ 2000 }
        requires small { minutes ≤ 20000000000000000 }
        ensures { result ≡ pos (self.now.vehicle * vehicles + self.now.empty * minutes) }
    {
        i128::from(self.vehicle) * vehicles as i128 + i128::from(self.empty) * i128::from(minutes)
    }

    // Dead minutes from a trip to another, where they leave time for the turnover.
    fn if_in_time(&self, i: usize, j: usize, minutes: u64) -> Option<u64>
        requires from { i < length self.now.trips }
        requires to { j < length self.now.trips }
        requires small { minutes ≤ 10000000000000 }
        ensures value { result
            ≡ if_in_time self.now (trip_of self.now i) (trip_of self.now j) minutes }
        ensures small { IfSome result (λ minutes. minutes ≤ 10000000000000) }
    {
        let ready = u64::from(self.trip(i).end.time) + self.turnover + minutes;
        if ready <= u64::from(self.trip(j).start.time) {
            Some(minutes)
        } else {
            None
        }
    }

    // What a link of some dead minutes gains.
    fn gain_of(&self, minutes: u64) -> i128
        requires { minutes ≤ 10000000000000 }
        ensures gain { result ≡ gain_of self.now minutes }
        ensures low { neg_ℤ (pos 10000000000000000000000000) ≤ℤ result }
    {
        i128::from(self.vehicle) - i128::from(self.empty) * i128::from(minutes)
    }
}

// The ids of the stops of a network.
fn stop_ids(alloc: Global, network: &Network) -> Result<Vec<i64>, NoMemory>
    ensures ids { IfOk result (λ ids. ids.items ≡ network.now.stops) }
    ensures network { IsNetwork network.now }
{
    let mut ids = Vec::new(alloc);
    for stop in 0..network.stop_count() {
        ids.push(network.stop_id(stop))?;
    }
    Ok(ids)
}
