// Small tables of links: the plan that gains the most, the first of several, and what proves it.
use assignment::{Link, LinkTable, Plan, Potentials, is_proved, solve};
use plan_num::NoMemory;
use std::alloc::Global;
use std::process::Abort;
use std::test::Fail;

// A link by its two trips, and what it gains.
type Gain = (usize, usize, u64);

// Three trips. The link of most gain, from the first to itself, is in the best plan; but the next
// one, from the second to the first, is not.
const THREE: [Gain; 5] = [(0, 0, 7), (0, 1, 5), (1, 0, 6), (1, 2, 2), (2, 1, 4)];

// Two trips that may come after either of two, all links alike.
const ALIKE: [Gain; 4] = [(0, 2, 1), (0, 3, 1), (1, 2, 1), (1, 3, 1)];

// The links of a trip.
fn row_of(alloc: Global, trip: usize, gains: &[Gain]) -> Result<Vec<Link>, NoMemory> {
    let mut row = Vec::new(alloc);
    for (from, to, gain) in gains {
        if *from == trip {
            row.push(Link {
                to: *to,
                gain: *gain,
            })?;
        }
    }
    Ok(row)
}

// The table of the links of so many trips; none where they are no lists of such.
fn table_of(alloc: Global, trips: usize, gains: &[Gain]) -> Result<Option<LinkTable>, NoMemory> {
    let mut rows = Vec::new(alloc);
    for trip in 0..trips {
        rows.push(row_of(alloc, trip, gains)?)?;
    }
    Ok(LinkTable::checked(rows))
}

// The trip after one in a plan, where it is there.
fn next_at(plan: &Plan, trip: usize) -> Option<usize> {
    if trip < plan.len() {
        plan.next(trip)
    } else {
        None
    }
}

// The plan of a table has these successors, and its potentials prove it.
fn has_plan(
    rt: &impl Abort,
    alloc: Global,
    links: &LinkTable,
    next: &[Option<usize>],
) -> Result<(), NoMemory> {
    let solved = solve(alloc, links, &[])?;
    for (trip, successor) in next.iter().enumerate() {
        assert_eq!(rt; next_at(&solved.plan, trip), *successor, "after {trip}");
    }
    assert!(rt; is_proved(alloc, links, &solved.plan, &solved.potentials)?);
    Ok(())
}

#[test]
fn most_is_gained(rt: HostRuntime) -> Result<(), Fail> {
    let links = table_of(rt.alloc(), 3, &THREE)?.expect(&rt, "lists of links");
    has_plan(&rt, rt.alloc(), &links, &[Some(0), Some(2), Some(1)])?;
    Ok(())
}

#[test]
fn the_first_of_several_is_chosen(rt: HostRuntime) -> Result<(), Fail> {
    let links = table_of(rt.alloc(), 4, &ALIKE)?.expect(&rt, "lists of links");
    has_plan(&rt, rt.alloc(), &links, &[Some(2), Some(3), None, None])?;
    Ok(())
}

#[test]
fn no_trip_needs_no_successor(rt: HostRuntime) -> Result<(), Fail> {
    let links = table_of(rt.alloc(), 0, &[])?.expect(&rt, "lists of links");
    has_plan(&rt, rt.alloc(), &links, &[])?;
    Ok(())
}

#[test]
fn potentials_of_zero_prove_nothing_where_a_link_gains(rt: HostRuntime) -> Result<(), Fail> {
    let links = table_of(rt.alloc(), 3, &THREE)?.expect(&rt, "lists of links");
    let alone = Plan::empty(rt.alloc(), 3)?;
    let zeros = Potentials::zeros(rt.alloc(), 3)?;
    assert!(rt; !is_proved(rt.alloc(), &links, &alone, &zeros)?);
    Ok(())
}

// Links that are no lists: to a trip that is not there, twice to one trip, backward, of too much
// gain.
const REFUSED: [&[Gain]; 4] = [
    &[(0, 2, 1)],
    &[(0, 1, 1), (0, 1, 2)],
    &[(0, 1, 1), (0, 0, 1)],
    &[(0, 1, 1_000_000_000_001)],
];

#[test]
fn other_lists_are_refused(rt: HostRuntime) -> Result<(), Fail> {
    for gains in REFUSED {
        assert!(rt; table_of(rt.alloc(), 2, gains)?.is_none());
    }
    Ok(())
}
