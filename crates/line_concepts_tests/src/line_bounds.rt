// Line problems: which concepts are feasible, what they cost, and what regions of them cost at
// least.
ghost use Rattle.std.specs.Prelude.{◌≡◌, ◌<◌, length, IfOk};

use line_cost_model::{Bound, LineProblem, Multipliers, Region, Side};
use plan_num::NoMemory;
use sample_problems::two_edges;
use std::alloc::Global;
use std::process::Abort;
use std::test::Fail;

// Frequencies of both lines, whether they are feasible, and what they cost in millionths.
const CONCEPTS: [([u32; 2], bool, i128); 5] = [
    ([1, 1], true, 27_000_000),
    ([2, 0], true, 30_000_000),
    ([1, 0], false, 15_000_000),
    ([3, 1], false, 57_000_000),
    ([0, 2], false, 24_000_000),
];

#[test]
fn concepts_are_judged(rt: HostRuntime) -> Result<(), Fail> {
    let problem = two_edges(rt.alloc(), 1, 3)?;
    for (frequencies, is_feasible, cost) in &CONCEPTS {
        assert_eq!(rt; problem.is_feasible(frequencies), *is_feasible);
        assert_eq!(rt; problem.cost(frequencies), *cost);
    }
    Ok(())
}

#[test]
fn problems_are_told(rt: HostRuntime) -> Result<(), Fail> {
    let problem = two_edges(rt.alloc(), 0, 3)?;
    let line = (problem.line_row(0), problem.line_edges(1));
    assert_eq!(rt; line, ((1, 15_000_000), [0].as_slice()));
    assert_eq!(rt; (problem.edge_count(), problem.line_count()), (2, 2));
    Ok(())
}

#[test]
fn ranges_end_at_the_least_maximum(rt: HostRuntime) -> Result<(), Fail> {
    let problem = two_edges(rt.alloc(), 0, 3)?;
    let region = Region::root(rt.alloc(), &problem)?;
    assert_eq!(rt; (region.ends(0), region.ends(1)), ((0, 3), (0, 3)));
    Ok(())
}

// The range of a line becomes one inside it; whether it is one is told.
fn narrow(region: &mut Region, line: usize, lo: u32, hi: u32) -> bool
    requires { line < length region.old }
    ensures { length region.new ≡ length region.old }
{
    let (least, most) = region.ends(line);
    if lo > hi || lo < least || hi > most {
        return false;
    }
    region.narrow(line, lo, hi);
    true
}

// The ends of the range of a line.
type Ends = (u32, u32);

// The region of a problem in which its two lines have these ranges.
fn region_of(
    alloc: Global,
    problem: &LineProblem,
    first: Ends,
    second: Ends,
) -> Result<Region, NoMemory>
    requires { length problem.now.lines ≡ 2 }
    ensures { IfOk result (λ region. length region ≡ 2) }
{
    let mut region = Region::root(alloc, problem)?;
    if narrow(&mut region, 0, first.0, first.1) && narrow(&mut region, 1, second.0, second.1) {
        Ok(region)
    } else {
        Err(NoMemory)
    }
}

// The ranges of both lines, and the edge that is empty there.
const EMPTY: [(Ends, Ends, Option<(usize, Side)>); 3] = [
    ((0, 3), (0, 3), None),
    // Without the first line the second edge is not driven.
    ((0, 0), (0, 3), Some((1, Side::Under))),
    ((2, 2), (2, 3), Some((0, Side::Over))),
];

#[test]
fn empty_regions_are_told(rt: HostRuntime) -> Result<(), Fail> {
    let problem = two_edges(rt.alloc(), 1, 3)?;
    for (first, second, edge) in EMPTY {
        let region = region_of(rt.alloc(), &problem, first, second)?;
        assert_eq!(rt; problem.empty_edge(&region), edge);
    }
    Ok(())
}

#[test]
fn a_range_is_restored(rt: HostRuntime) -> Result<(), Fail> {
    let problem = two_edges(rt.alloc(), 1, 3)?;
    let mut often = region_of(rt.alloc(), &problem, (2, 2), (2, 3))?;
    let (lo, hi) = often.ends(1);
    assert_eq!(rt; (lo, hi), (2, 3));
    often.restore(1, 0, 3);
    assert_eq!(rt; problem.empty_edge(&often), None);
    Ok(())
}

// A bound is so many millionths, and these multipliers prove it.
fn is_bound(rt: &impl Abort, bound: &Bound, value: i128, multipliers: &[(usize, i64)]) {
    assert_eq!(rt; bound.value, value);
    assert_eq!(rt; bound.multipliers.len(), multipliers.len());
    for (place, (edge, millionths)) in multipliers.iter().enumerate() {
        assert!(rt; place < bound.multipliers.len());
        assert_eq!(rt; bound.multipliers.get(place), (*edge, *millionths));
    }
}

// The ranges of both lines, the bound in millionths, and the multipliers that prove it.
const BOUNDS: [(Ends, Ends, i128, &[(usize, i64)]); 5] = [
    ((0, 3), (0, 3), 24_000_000, &[(0, 12_000_000)]),
    ((1, 1), (0, 3), 27_000_000, &[(0, 12_000_000)]),
    ((2, 3), (0, 3), 30_000_000, &[]),
    ((0, 0), (3, 3), 36_000_000, &[]),
    // Only the first line is open, and so it alone counts.
    ((0, 3), (0, 0), 30_000_000, &[(0, 15_000_000)]),
];

#[test]
fn regions_are_bounded(rt: HostRuntime) -> Result<(), Fail> {
    let problem = two_edges(rt.alloc(), 0, 3)?;
    for (first, second, value, multipliers) in BOUNDS {
        let region = region_of(rt.alloc(), &problem, first, second)?;
        let bound = problem.dual_bound(rt.alloc(), &region)?;
        is_bound(&rt, &bound, value, multipliers);
    }
    Ok(())
}

// The ends of both ranges of a region.
fn both_ends(region: &Region) -> (Ends, Ends)
    requires { length region.now ≡ 2 }
{
    (region.ends(0), region.ends(1))
}

#[test]
fn a_copied_region_has_the_same_ends(rt: HostRuntime) -> Result<(), Fail> {
    let problem = two_edges(rt.alloc(), 0, 3)?;
    let region = region_of(rt.alloc(), &problem, (1, 1), (0, 3))?;
    let copy = region.copy(rt.alloc())?;
    assert_eq!(rt; both_ends(&copy), ((1, 1), (0, 3)));
    assert_eq!(rt; both_ends(&copy), both_ends(&region));
    Ok(())
}

#[test]
fn what_one_edge_takes_the_next_has_no_more(rt: HostRuntime) -> Result<(), Fail> {
    let problem = two_edges(rt.alloc(), 3, 9)?;
    let region = Region::root(rt.alloc(), &problem)?;
    let bound = problem.dual_bound(rt.alloc(), &region)?;
    is_bound(&rt, &bound, 33_000_000, &[(0, 12_000_000), (1, 3_000_000)]);
    Ok(())
}

#[test]
fn multipliers_of_any_hand(rt: HostRuntime) -> Result<(), Fail> {
    let mut own = Multipliers::new(rt.alloc());
    own.push(0, 1)?;
    own.push(7, 1_000_000_000_000_000_000)?;
    assert_eq!(rt; own.len(), 2);
    assert_eq!(rt; own.get(0), (0, 1));
    assert_eq!(rt; own.get(1), (7, 1_000_000_000_000_000_000));
    Ok(())
}
