// What trees certify, and why others do not.
use branch_certificate::{TreeFault, check_tree, read_tree};
use line_cost_model::LineProblem;
use sample_problems::{one_edge, two_edges};
use std::alloc::{AllocError, Global};
use std::process::Abort;
use std::test::Fail;

// A text of a tree, the millionths that it is to certify, and its first fault.
type Judged = (&'static [u8], i128, Option<TreeFault>);

const SHAPES: [Judged; 4] = [
    (b"", 0, Some(TreeFault::Shape { node: 0 })),
    (
        b"split; 1; 1; 0\nbound; 0; 0; 0\n",
        0,
        Some(TreeFault::Shape { node: 2 }),
    ),
    (
        b"bound; 0; 0; 0\nbound; 0; 0; 0\n",
        0,
        Some(TreeFault::Shape { node: 0 }),
    ),
    (
        b"split; 1; 9; 0\npoint; 0; 0; 0\npoint; 0; 0; 0\nsplit; 1; 1; 0\n",
        0,
        Some(TreeFault::Shape { node: 2 }),
    ),
];

const CHEAPEST: &[u8] = b"split; 1; 1; 0\nsplit; 1; 0; 0\nempty; 2; 1; 0\nsplit; 2; 1; 0\n\
    split; 2; 0; 0\nempty; 1; 1; 0\npoint; 0; 0; 0\nbound; 0; 0; 0\nbound; 0; 0; 0\n";

const COSTS: [Judged; 4] = [
    (CHEAPEST, -1, None),
    (CHEAPEST, 27_000_000, None),
    (CHEAPEST, 27_000_001, Some(TreeFault::Point { node: 6 })),
    (CHEAPEST, 30_000_001, Some(TreeFault::Bound { node: 8 })),
];

const KINDS: [Judged; 5] = [
    (
        b"split; 1; 3; 0\npoint; 0; 0; 0\npoint; 0; 0; 0\n",
        0,
        Some(TreeFault::Split { node: 0 }),
    ),
    (b"empty; 1; 1; 0\n", 0, Some(TreeFault::Empty { node: 0 })),
    (b"empty; 1; 0; 0\n", 0, Some(TreeFault::Empty { node: 0 })),
    (b"point; 0; 0; 0\n", 0, Some(TreeFault::Point { node: 0 })),
    // The region of a part that is not reached any more does not count.
    (
        b"split; 1; 0; 0\npoint; 0; 0; 0\nsplit; 1; 0; 0\nempty; 1; 0; 0\npoint; 0; 0; 0\n",
        0,
        Some(TreeFault::Split { node: 2 }),
    ),
];

// The multiplier costs as much as the second line, more, and less than is wanted.
const MULTIPLIERS: [Judged; 3] = [
    (
        b"split; 1; 1; 0\nsplit; 1; 0; 0\nsplit; 2; 1; 0\nempty; 1; 1; 0\nsplit; 2; 2; 0\n\
        point; 0; 0; 0\nbound; 0; 0; 0\nbound; 1; 0; 0\nmult; 1; 0; 12\nbound; 0; 0; 0\n",
        24_000_000,
        None,
    ),
    (
        b"split; 1; 1; 0\nsplit; 1; 0; 0\nsplit; 2; 1; 0\nempty; 1; 1; 0\nsplit; 2; 2; 0\n\
        point; 0; 0; 0\nbound; 0; 0; 0\nbound; 1; 0; 0\nmult; 1; 0; 12.000001\nbound; 0; 0; 0\n",
        24_000_000,
        Some(TreeFault::Multiplier { node: 7 }),
    ),
    (
        b"split; 1; 1; 0\nsplit; 1; 0; 0\nsplit; 2; 1; 0\nempty; 1; 1; 0\nsplit; 2; 2; 0\n\
        point; 0; 0; 0\nbound; 0; 0; 0\nbound; 1; 0; 0\nmult; 1; 0; 8\nbound; 0; 0; 0\n",
        24_000_000,
        Some(TreeFault::Bound { node: 7 }),
    ),
];

// The first fault of the tree of a text.
fn fault_of(
    alloc: Global,
    problem: &LineProblem,
    best: i128,
    text: &[u8],
) -> Result<Option<TreeFault>, Fail> {
    let tree = read_tree(alloc, text, problem)?;
    Ok(check_tree(alloc, problem, best, &tree)?)
}

// Trees have these faults.
fn are_judged(
    rt: &(impl AllocGlobal + Abort),
    problem: &LineProblem,
    cases: &[Judged],
) -> Result<(), Fail> {
    for (text, best, fault) in cases {
        assert_eq!(rt; fault_of(rt.alloc(), problem, *best, text)?, *fault);
    }
    Ok(())
}

#[test]
fn shapes_are_judged(rt: HostRuntime) -> Result<(), Fail> {
    let problem = two_edges(rt.alloc(), 1, 3)?;
    are_judged(&rt, &problem, &SHAPES)
}

#[test]
fn a_tree_certifies_27(rt: HostRuntime) -> Result<(), Fail> {
    let problem = two_edges(rt.alloc(), 1, 3)?;
    are_judged(&rt, &problem, &COSTS)
}

#[test]
fn faults_are_told_by_kind(rt: HostRuntime) -> Result<(), Fail> {
    let problem = two_edges(rt.alloc(), 1, 3)?;
    are_judged(&rt, &problem, &KINDS)
}

// The second edge need not be driven.
#[test]
fn multipliers_are_judged(rt: HostRuntime) -> Result<(), Fail> {
    let problem = two_edges(rt.alloc(), 0, 3)?;
    are_judged(&rt, &problem, &MULTIPLIERS)
}

// Splits of so many lines at each of 1000 frequencies from the last one on, and one leaf more than
// there are splits.
fn long_tree(alloc: Global, lines: u32) -> Result<String, AllocError> {
    let mut text = String::new(alloc);
    for line in 1..=lines {
        for at in 0..1000u32 {
            let row = format!(in alloc; "split; {line}; {}; 0\n", 999 - at)?;
            text.push_str(&row)?;
        }
    }
    for _line in 0..lines {
        for _at in 0..1000 {
            text.push_str("bound; 0; 0; 0\n")?;
        }
    }
    text.push_str("bound; 0; 0; 0\n")?;
    Ok(text)
}

#[test]
fn long_trees_are_judged(rt: HostRuntime) -> Result<(), Fail> {
    let problem = one_edge(rt.alloc(), 200)?;
    let text = long_tree(rt.alloc(), 200)?;
    assert_eq!(rt; fault_of(rt.alloc(), &problem, 0, text.as_bytes())?, None);
    Ok(())
}
