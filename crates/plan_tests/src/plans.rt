// Trips of texts, plans over them with their schedules, and plans of least cost.
ghost use Rattle.std.specs.Prelude.{◌≤ℤ◌, pos};
ghost use Rattle.link_plans.specs.Plans.{IsPlan};
ghost use Rattle.vehicle_model.specs.Trips.{links_of};

use crate::refusing::bad_row;
use giv_files::{FileId, RowFault, RowWhy, StageFault};
use plan_num::{NoMemory, Text};
use std::alloc::Global;
use std::process::Abort;
use std::test::Fail;
use vehicle_flow::cheapest_plan;
use vehicle_model::{Plan, PlanFault, Trips, plan_cost, read_plan, write_plan};

const STOPS: &[u8] = b"1;;;;;\n2;;;;;\n3;;;;;\n4;;;;;\n";

const EDGES: &[u8] = b"1; 1; 2; 2; 4; 5\n2; 2; 3; 3; 6; 6\n";

/// Two lines, there and back, each of them twice.
pub(crate) const EIGHT: &[u8] =
    b"1; 1; 1; 0; 4; 4; 3; 11; 1\n5; 1; 1; 20; 8; 4; 3; 31; 1\n9; 5; 3; 0; 12; 8; 1; 11; 1\n\
    13; 5; 3; 20; 16; 8; 1; 31; 1\n17; 9; 1; 0; 18; 10; 2; 4; 2\n19; 9; 1; 20; 20; 10; 2; 24; 2\n\
    21; 11; 2; 0; 22; 12; 1; 4; 2\n23; 11; 2; 20; 24; 12; 1; 24; 2\n";

/// A schedule of them with four vehicles.
pub(crate) const SCHEDULE: &[u8] =
    b"# circulation; vehicle; number; type; start-id; periodic-start-id; start-stop; start-time; \
    end-id; periodic-end-id; end-stop; end-time; line\n\
    1; 1; 1; TRIP; 1; 1; 1; 0; 4; 4; 3; 11; 1\n1; 1; 2; EMPTY; 4; 4; 3; 11; 13; 5; 3; 11; 0\n\
    1; 1; 3; TRIP; 13; 5; 3; 20; 16; 8; 1; 31; 1\n2; 2; 1; TRIP; 9; 5; 3; 0; 12; 8; 1; 11; 1\n\
    2; 2; 2; EMPTY; 12; 8; 1; 11; 5; 1; 1; 11; 0\n2; 2; 3; TRIP; 5; 1; 1; 20; 8; 4; 3; 31; 1\n\
    3; 3; 1; TRIP; 17; 9; 1; 0; 18; 10; 2; 4; 2\n3; 3; 2; EMPTY; 18; 10; 2; 4; 23; 11; 2; 4; 0\n\
    3; 3; 3; TRIP; 23; 11; 2; 20; 24; 12; 1; 24; 2\n4; 4; 1; TRIP; 21; 11; 2; 0; 22; 12; 1; 4; 2\n\
    4; 4; 2; EMPTY; 22; 12; 1; 4; 19; 9; 1; 4; 0\n4; 4; 3; TRIP; 19; 9; 1; 20; 20; 10; 2; 24; 2\n";

// Two trips with a dead ride of four minutes between them.
const TWO: &[u8] = b"2; 2; 1; 0; 3; 3; 2; 10; 1\n4; 4; 1; 30; 5; 5; 2; 40; 1\n";

// Two trips that may follow the first one.
const THREE: &[u8] =
    b"1; 1; 1; 0; 2; 2; 2; 10; 1\n3; 1; 2; 12; 4; 2; 1; 22; 1\n5; 1; 2; 13; 6; 2; 1; 23; 1\n";

/// The trips of a text, with a turnover of two minutes, vehicles at 100 and dead minutes at 1.
pub(crate) fn trips_of(alloc: Global, trips: &[u8]) -> Result<Trips, StageFault> {
    Trips::from_texts(alloc, STOPS, EDGES, trips, 2, 100_000_000, 1_000_000)
}

// The gain of a link, where the trips are there.
fn gain_at(trips: &Trips, i: usize, j: usize) -> Option<i128> {
    if i < trips.len() && j < trips.len() {
        trips.link_gain(i, j)
    } else {
        None
    }
}

// The successor of a trip, where it is there.
fn next_at(plan: &Plan, i: usize) -> Option<usize> {
    if i < plan.len() { plan.next(i) } else { None }
}

// Two of eight trips, and the gain of a link between them.
const GAINS: [(usize, usize, Option<i128>); 5] = [
    (0, 3, Some(100_000_000)),
    (0, 1, None),
    (0, 7, Some(94_000_000)),
    (3, 0, None),
    (8, 0, None),
];

// The gains of links between so many trips are these.
fn have_gains(rt: &impl Abort, trips: &Trips) {
    assert_eq!(rt; trips.len(), 8);
    for (i, j, gain) in GAINS {
        assert_eq!(rt; gain_at(trips, i, j), gain, "{i} to {j}");
    }
}

#[test]
fn trips_follow_by_stops_and_times(rt: HostRuntime) -> Result<(), Fail> {
    let trips = trips_of(rt.alloc(), EIGHT)?;
    have_gains(&rt, &trips);
    Ok(())
}

#[test]
fn a_turnover_takes_its_time(rt: HostRuntime) -> Result<(), Fail> {
    let late = Trips::from_texts(rt.alloc(), STOPS, EDGES, EIGHT, 10_000, 0, 0)?;
    assert_eq!(rt; gain_at(&late, 0, 3), None);
    Ok(())
}

// What a plan costs, and the successors of the first two trips.
fn told(trips: &Trips, plan: &Plan) -> (i128, Option<usize>, Option<usize>)
    requires { IsPlan (links_of trips.now) plan.now }
{
    (plan_cost(trips, plan), next_at(plan, 0), next_at(plan, 1))
}

fn told_of(
    alloc: Global,
    trips: &Trips,
    schedule: &[u8],
) -> Result<(i128, Option<usize>, Option<usize>), PlanFault> {
    let plan = read_plan(alloc, schedule, trips)?;
    Ok(told(trips, &plan))
}

#[test]
fn a_plan_is_read_and_costs(rt: HostRuntime) -> Result<(), Fail> {
    let trips = trips_of(rt.alloc(), EIGHT)?;
    let told = told_of(rt.alloc(), &trips, SCHEDULE)?;
    assert_eq!(rt; told, (400_000_000, Some(3), None));
    Ok(())
}

#[test]
fn no_trips_are_a_plan(rt: HostRuntime) -> Result<(), Fail> {
    let trips = trips_of(rt.alloc(), b"# start-id; ..\n")?;
    let told = told_of(rt.alloc(), &trips, b"# circulation; ..\n")?;
    assert_eq!(rt; told, (0, None, None));
    Ok(())
}

// How the plan of a schedule is written.
fn written(alloc: Global, trips: &Trips, schedule: &[u8]) -> Result<Text, Fail> {
    let plan = read_plan(alloc, schedule, trips)?;
    Ok(write_plan(alloc, trips, &plan)?)
}

#[test]
fn a_plan_is_written(rt: HostRuntime) -> Result<(), Fail> {
    let trips = trips_of(rt.alloc(), EIGHT)?;
    assert_eq!(rt; written(rt.alloc(), &trips, SCHEDULE)?.as_bytes(), SCHEDULE);
    Ok(())
}

#[test]
fn trips_are_refused(rt: HostRuntime) -> Result<(), Fail> {
    let unknown = trips_of(rt.alloc(), b"1; 1; 9; 0; 2; 2; 1; 5; 1\n").err();
    assert_eq!(rt;
        unknown,
        Some(bad_row(FileId::Trips, 1, RowWhy::UnknownStop))
    );
    let backward = trips_of(rt.alloc(), b"1; 1; 1; 5; 2; 2; 1; 5; 1\n").err();
    assert_eq!(rt; backward, Some(bad_row(FileId::Trips, 1, RowWhy::Backward)));
    Ok(())
}

// Schedules of the two trips, and why they are none.
const OUT_OF_FORM: [(&[u8], PlanFault); 4] = [
    (
        b"1; 1; 1; TRIP; 2; 2; 1; 0; 3; 3; 2; 10; 1\n1; 1; 2; TRIP; 4; 4; 1; 30; 5; 5; 2; 40; 1\n",
        PlanFault::Trips { row: 2 },
    ),
    (
        b"1; 1; 1; TRIP; 2; 2; 1; 0; 3; 3; 2; 10; 1\n1; 1; 2; EMPTY; 3; 3; 2; 10; 4; 4; 1; 14; 0\n\
        1; 1; 3; EMPTY; 3; 3; 2; 10; 4; 4; 1; 14; 0\n1; 1; 4; TRIP; 4; 4; 1; 30; 5; 5; 2; 40; 1\n",
        PlanFault::Trips { row: 2 },
    ),
    (
        b"1; 1; 1; TRIP; 2; 2; 1; 0; 3; 3; 2; 10; 1\n3; 3; 1; TRIP; 4; 4; 1; 30; 5; 5; 2; 40; 1\n",
        PlanFault::Trips { row: 2 },
    ),
    (
        b"1; 1; 1; TRIP; 2; 2; 1; 0; 3; 3; 2; 10; 1\n",
        PlanFault::Trips { row: 0 },
    ),
];

const OTHER_FAULTS: [(&[u8], PlanFault); 3] = [
    (
        b"1; 1; 1; TRIP; 2; 2; 1; 0; 3; 3; 2; 10; 1\n1; 1; 2; EMPTY; 3; 3; 2; 10; 4; 4; 1; 15; 0\n\
        1; 1; 3; TRIP; 4; 4; 1; 30; 5; 5; 2; 40; 1\n",
        PlanFault::Trips { row: 2 },
    ),
    (
        b"1; 1; 1; TRIP; 4; 4; 1; 30; 5; 5; 2; 40; 1\n1; 1; 2; EMPTY; 5; 5; 2; 40; 2; 2; 1; 44; 0\n\
        1; 1; 3; TRIP; 2; 2; 1; 0; 3; 3; 2; 10; 1\n",
        PlanFault::Follow { trip: 0 },
    ),
    (
        b"x\n",
        PlanFault::Row(RowFault {
            row: 1,
            why: RowWhy::FieldCount { found: 1 },
        }),
    ),
];

// Why a text is no plan over the two trips.
fn fault_of(alloc: Global, text: &[u8]) -> Result<Option<PlanFault>, StageFault> {
    let trips = trips_of(alloc, TWO)?;
    Ok(read_plan(alloc, text, &trips).err())
}

// Schedules are refused so.
fn are_refused(rt: &(impl AllocGlobal + Abort), cases: &[(&[u8], PlanFault)]) -> Result<(), Fail> {
    for (text, fault) in cases {
        assert_eq!(rt; fault_of(rt.alloc(), text)?, Some(*fault));
    }
    Ok(())
}

#[test]
fn rows_out_of_form_are_told(rt: HostRuntime) -> Result<(), Fail> {
    are_refused(&rt, &OUT_OF_FORM)
}

#[test]
fn other_faults_of_a_plan_are_told(rt: HostRuntime) -> Result<(), Fail> {
    are_refused(&rt, &OTHER_FAULTS)
}

// What the found plan of trips costs, and the successors of the first two trips.
fn cheapest(
    alloc: Global,
    trips: &Trips,
) -> Result<(i128, Option<usize>, Option<usize>), NoMemory> {
    let solved = cheapest_plan(alloc, trips)?;
    Ok(told(trips, &solved.plan))
}

// The same of the two trips, where a dead minute costs so much.
fn cheapest_of_two(
    alloc: Global,
    empty: i64,
) -> Result<(i128, Option<usize>, Option<usize>), StageFault>
    requires { (pos 0 ≤ℤ empty) × (empty ≤ℤ pos 1000000000000) }
{
    let trips = Trips::from_texts(alloc, STOPS, EDGES, TWO, 2, 100_000_000, empty)?;
    Ok(cheapest(alloc, &trips)?)
}

#[test]
fn one_of_two_follows(rt: HostRuntime) -> Result<(), Fail> {
    let trips = trips_of(rt.alloc(), THREE)?;
    assert_eq!(rt; cheapest(rt.alloc(), &trips)?.0, 200_000_000);
    Ok(())
}

// A dead ride of four minutes costs more than a vehicle, as much, and less.
#[test]
fn a_ride_that_costs_more_than_a_vehicle_is_left_out(rt: HostRuntime) -> Result<(), Fail> {
    let dear = cheapest_of_two(rt.alloc(), 30_000_000)?;
    assert_eq!(rt; dear, (200_000_000, None, None));
    let equal = cheapest_of_two(rt.alloc(), 25_000_000)?;
    assert_eq!(rt; equal.0, 200_000_000);
    let cheap = cheapest_of_two(rt.alloc(), 1_000_000)?;
    assert_eq!(rt; cheap, (104_000_000, Some(1), None));
    Ok(())
}
