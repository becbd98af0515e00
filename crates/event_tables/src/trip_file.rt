// Reading trips.
ghost use Rattle.std.specs.Prelude.{ℕ, ◌≡◌, nat_eq, option_map, IfOk};
ghost use Rattle.std.specs.HashSet.{contains};
ghost use Rattle.std.specs.List.{list_any};
ghost use Rattle.tables.specs.RowsOfTables.{ReadsFile};
ghost use Rattle.event_tables.specs.Trips.{trip_input, trip_rules, is_stop, lacks_stop, AreTrips};

use crate::trip::Trip;
use plan_num::NoMemory;
use std::alloc::Global;
use std::collections::HashSet;
use tables::{Counted, FileId, RowLimit, RowTests, RowWhy, StageFault, columns, read_file};

const LIMIT: RowLimit = RowLimit {
    what: Counted::Trips,
    most: 2_000,
};

/// The trips of a text between stops, or its first fault. Where no ids of stops are given, the
/// stops of trips are not looked at.
pub fn trips(alloc: Global, stops: Option<&[i64]>, text: &[u8]) -> Result<Vec<Trip>, StageFault>
    ensures read { ReadsFile (trip_input (option_map (λ ids. ids.now) stops.entry)) text.now result }
    ensures sound { IfOk result
        (λ trips. AreTrips (option_map (λ ids. ids.now) stops.entry) trips.items) }
{
    let tests = TripTests {
        stops,
        starts: HashSet::new(alloc),
    };
    read_file(
        alloc,
        FileId::Trips,
        text,
        &columns!(Trips),
        Some(LIMIT),
        tests,
    )
}

// The rules of trips between stops, with the start events so far.
#[derive(Drop)]
struct TripTests<'a> {
    stops: Option<&'a [i64]>,
    starts: HashSet<u32>,
}

impl<'a> RowTests<Trip> for TripTests<'a> {
    ghost rules = { λ tests. trip_rules (option_map (λ ids. ids.now) tests.stops) };

    ghost Knows = { λ tests before. (id : ℕ) → contains nat_eq tests.starts id ≡ list_any
        (λ trip. nat_eq id trip.start.event) before };

    fn test(&mut self, _before: &[Trip], row: &Trip) -> Result<Option<RowWhy>, NoMemory> {
        if !self.starts.insert(row.start.event)? {
            return Ok(Some(RowWhy::RepeatedId));
        }
        if lacks_stop(self.stops, row) {
            return Ok(Some(RowWhy::UnknownStop));
        }
        Ok(row.takes_no_time().then_some(RowWhy::Backward))
    }
}

// Whether one end of a trip is none of the stops, where these are known.
fn lacks_stop(stops: Option<&[i64]>, trip: &Trip) -> bool
    ensures { result ≡ lacks_stop (option_map (λ ids. ids.now) stops.entry) trip.now }
{
    match stops {
        Some(stops) => !is_stop(stops, trip.start.stop) || !is_stop(stops, trip.end.stop),
        None => false,
    }
}

// Whether an id is that of a stop.
fn is_stop(stops: &[i64], id: u32) -> bool
    ensures { result ≡ is_stop stops.now id }
{
    stops.contains(&i64::from(id))
}
