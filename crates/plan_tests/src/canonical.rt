// Potentials of trips: which certify a schedule, their table, and the canonical ones.
ghost use Rattle.std.specs.Prelude.{length};
ghost use Rattle.link_plans.specs.Potentials.{AreOver};
ghost use Rattle.link_plans.specs.Plans.{IsPlan};
ghost use Rattle.vehicle_model.specs.Trips.{links_of};

use crate::plans::{EIGHT, SCHEDULE, trips_of};
use flow_potentials::{
    PotentialFault, Potentials, check_potentials, potentials, read_potentials, write_potentials,
};
use giv_files::{ReadFault, RowFault, RowWhy};
use plan_num::{NoMemory, Text};
use std::alloc::Global;
use std::process::Abort;
use std::test::Fail;
use vehicle_model::{Plan, Trips, read_plan};

// What certifies the schedule of eight trips.
const CERTIFICATE: &[u8] =
    b"# trip; u; v\n1; 0; 0\n2; 0; 100\n3; 0; 0\n4; 0; 100\n5; 0; 0\n6; 0; 100\n7; 0; 0\n8; 0; 100\n";

// What the check says of that schedule with potentials.
fn checked(alloc: Global, potentials: &Potentials) -> Result<Option<PotentialFault>, Fail> {
    let trips = trips_of(alloc, EIGHT)?;
    checked_over(alloc, &trips, potentials)
}

fn checked_over(
    alloc: Global,
    trips: &Trips,
    potentials: &Potentials,
) -> Result<Option<PotentialFault>, Fail> {
    let plan = read_plan(alloc, SCHEDULE, trips)?;
    Ok(fault_of(trips, &plan, potentials))
}

// What it says of a plan with potentials.
fn fault_of(trips: &Trips, plan: &Plan, potentials: &Potentials) -> Option<PotentialFault>
    requires { IsPlan (links_of trips.now) plan.now }
{
    if potentials.len() == trips.len() {
        check_potentials(trips, plan, potentials)
    } else {
        Some(PotentialFault::Sum)
    }
}

#[test]
fn valid_potentials_pass(rt: HostRuntime) -> Result<(), Fail> {
    let potentials = read_potentials(rt.alloc(), CERTIFICATE, 8)?;
    assert_eq!(rt; checked(rt.alloc(), &potentials)?, None);
    Ok(())
}

// How what a text is read as is written.
fn written(alloc: Global, text: &[u8]) -> Result<Text, Fail> {
    let potentials = read_potentials(alloc, text, 8)?;
    Ok(write_potentials(alloc, &potentials)?)
}

#[test]
fn potentials_are_written(rt: HostRuntime) -> Result<(), Fail> {
    assert_eq!(rt; written(rt.alloc(), CERTIFICATE)?.as_bytes(), CERTIFICATE);
    Ok(())
}

#[test]
fn others_are_refused(rt: HostRuntime) -> Result<(), Fail> {
    let mut less = read_potentials(rt.alloc(), CERTIFICATE, 8)?;
    less.set_v(1, 99_000_000);
    let pair = Some(PotentialFault::Pair { i: 2, j: 1 });
    assert_eq!(rt; checked(rt.alloc(), &less)?, pair);
    let mut more = read_potentials(rt.alloc(), CERTIFICATE, 8)?;
    more.set_u(1, 1_000_000);
    assert_eq!(rt; checked(rt.alloc(), &more)?, Some(PotentialFault::Sum));
    Ok(())
}

#[test]
fn zeros_are_refused(rt: HostRuntime) -> Result<(), Fail> {
    let zeros = Potentials::zeros(rt.alloc(), 8)?;
    let pair = Some(PotentialFault::Pair { i: 0, j: 3 });
    assert_eq!(rt; checked(rt.alloc(), &zeros)?, pair);
    Ok(())
}

// Texts, of how many trips they are to be, and the rows and the reasons of their refusals.
const REFUSED: [(&[u8], usize, u64, RowWhy); 4] = [
    (b"# x\n1; 0; 0\n3; 0; 0\n", 2, 3, RowWhy::OrderGap),
    (b"1; 0; 0\n2; 0; 0\n", 1, 2, RowWhy::OrderGap),
    (b"1; 0; 0\n2; 0; 0\n", 3, 0, RowWhy::OrderGap),
    (b"5; 0; 0\n2; x; 0\n", 2, 2, RowWhy::NotNumber { column: 2 }),
];

#[test]
fn gaps_are_told(rt: HostRuntime) -> Result<(), Fail> {
    for (text, trips, row, why) in REFUSED {
        let told = read_potentials(rt.alloc(), text, trips).err();
        assert_eq!(rt; told, Some(ReadFault::Row(RowFault { row, why })));
    }
    Ok(())
}

// Three trips, of which two may follow the first one, and a link to the second one.
const THREE: &[u8] =
    b"2; 2; 1; 0; 3; 3; 2; 10; 1\n4; 4; 2; 12; 5; 5; 1; 22; 1\n6; 6; 2; 13; 7; 7; 1; 23; 1\n";

const LINKED: &[u8] =
    b"1; 1; 1; TRIP; 2; 2; 1; 0; 3; 3; 2; 10; 1\n1; 1; 2; EMPTY; 3; 3; 2; 10; 4; 4; 2; 10; 0\n\
    1; 1; 3; TRIP; 4; 4; 2; 12; 5; 5; 1; 22; 1\n2; 2; 1; TRIP; 6; 6; 2; 13; 7; 7; 1; 23; 1\n";

// The canonical potentials of a schedule that a certificate certifies; none where it does not.
fn canonical(
    alloc: Global,
    trips: &[u8],
    schedule: &[u8],
    certificate: &[u8],
) -> Result<Option<Potentials>, Fail> {
    let trips = trips_of(alloc, trips)?;
    canonical_over(alloc, &trips, schedule, certificate)
}

fn canonical_over(
    alloc: Global,
    trips: &Trips,
    schedule: &[u8],
    certificate: &[u8],
) -> Result<Option<Potentials>, Fail> {
    let plan = read_plan(alloc, schedule, trips)?;
    let valid = read_potentials(alloc, certificate, trips.len())?;
    Ok(canonical_of(alloc, trips, &plan, &valid)?)
}

fn canonical_of(
    alloc: Global,
    trips: &Trips,
    plan: &Plan,
    valid: &Potentials,
) -> Result<Option<Potentials>, NoMemory>
    requires plan { IsPlan (links_of trips.now) plan.now }
    requires each { AreOver (length trips.now.trips) valid.now }
{
    match check_potentials(trips, plan, valid) {
        None => Ok(Some(potentials(alloc, trips, plan, valid)?)),
        Some(_fault) => Ok(None),
    }
}

// Their text.
fn text_of(alloc: Global, potentials: &Option<Potentials>) -> Result<Option<Text>, Fail> {
    match potentials {
        Some(found) if found.len() <= 1_000_000_000 => Ok(Some(write_potentials(alloc, found)?)),
        _ => Ok(None),
    }
}

// A schedule with these potentials has those as its canonical ones.
fn are_canonical(
    rt: &(impl AllocGlobal + Abort),
    trips: &[u8],
    schedule: &[u8],
    given: &[u8],
    want: &[u8],
) -> Result<(), Fail> {
    let found = canonical(rt.alloc(), trips, schedule, given)?;
    let text = text_of(rt.alloc(), &found)?;
    assert_eq!(rt; text.as_ref().map(|text| text.as_bytes()), Some(want));
    Ok(())
}

#[test]
fn canonical_potentials_are_found(rt: HostRuntime) -> Result<(), Fail> {
    are_canonical(&rt, EIGHT, SCHEDULE, CERTIFICATE, CERTIFICATE)?;
    let certificate = b"# trip; u; v\n1; 100; 0\n2; 0; 0\n3; 0; 0\n";
    are_canonical(&rt, THREE, LINKED, certificate, certificate)
}

// Each first trip of a vehicle takes a part of what its second one has.
#[test]
fn canonical_potentials_may_be_others(rt: HostRuntime) -> Result<(), Fail> {
    let given = b"# trip; u; v\n1; 1; 0\n2; 0; 99\n3; 1; 0\n4; 0; 99\n5; 1; 0\n6; 0; 99\n7; 1; 0\n\
        8; 0; 99\n";
    are_canonical(&rt, EIGHT, SCHEDULE, given, CERTIFICATE)
}
