// What trees certify, and why others do not.
ghost use Rattle.std.specs.Prelude.{All, IfSome};
ghost use Rattle.line_concepts.specs.Nodes.{NamesWhatIs};

use crate::nodes::{Says, tree_of};
use line_concepts::{Searched, TreeFault, check_tree, search_concept};
use line_cost_model::LineProblem;
use plan_num::{NoMemory, Steps, Tally};
use sample_problems::two_edges;
use std::alloc::Global;
use std::test::Fail;

// Millionths that a tree is to certify, what its nodes say, and its first fault.
type Judged = (i128, &'static [Says], Option<TreeFault>);

// The tree of the search, where the edges are to be driven twice and once.
const CHEAPEST: [Says; 9] = [
    Says::Split(0, 1),
    Says::Split(0, 0),
    Says::Under(1),
    Says::Split(1, 1),
    Says::Split(1, 0),
    Says::Under(0),
    Says::Point,
    Says::Bound,
    Says::Bound,
];

// The same with a first split at the greatest frequency, and without the last leaf.
const OUTSIDE: [Says; 3] = [Says::Split(0, 3), Says::Bound, Says::Bound];

const CUT_SHORT: [Says; 2] = [Says::Split(0, 1), Says::Bound];

const CASES: [Judged; 9] = [
    (27_000_000, &CHEAPEST, None),
    (27_000_001, &CHEAPEST, Some(TreeFault::Point { node: 6 })),
    (30_000_001, &CHEAPEST, Some(TreeFault::Bound { node: 8 })),
    (0, &OUTSIDE, Some(TreeFault::Split { node: 0 })),
    (0, &CUT_SHORT, Some(TreeFault::Shape { node: 2 })),
    (0, &[], Some(TreeFault::Shape { node: 0 })),
    (0, &[Says::Under(0)], Some(TreeFault::Empty { node: 0 })),
    (1, &[Says::Bound], Some(TreeFault::Bound { node: 0 })),
    (0, &[Says::Point], Some(TreeFault::Point { node: 0 })),
];

// The first fault of the tree whose nodes say this.
fn fault_of(
    alloc: Global,
    problem: &LineProblem,
    cost: i128,
    said: &[Says],
) -> Result<Option<TreeFault>, NoMemory> {
    let tree = tree_of(alloc, problem, said)?;
    check_tree(alloc, problem, cost, &tree)
}

#[test]
fn trees_are_judged(rt: HostRuntime) -> Result<(), Fail> {
    let problem = two_edges(rt.alloc(), 1, 3)?;
    for (cost, said, fault) in CASES {
        assert_eq!(rt; fault_of(rt.alloc(), &problem, cost, said)?, fault);
    }
    Ok(())
}

// Whether what was found has a tree that certifies so much.
fn is_certified(
    alloc: Global,
    problem: &LineProblem,
    found: &Searched,
    cost: i128,
) -> Result<bool, NoMemory>
    requires { IfSome found.now.tree (All (NamesWhatIs problem.now)) }
{
    match &found.tree {
        Some(tree) => Ok(check_tree(alloc, problem, cost, tree)?.is_none()),
        None => Ok(false),
    }
}

// Whether the tree of a search certifies so much.
fn search_certifies(alloc: Global, problem: &LineProblem, cost: i128) -> Result<bool, NoMemory> {
    let mut steps = Steps::new(Tally::new());
    let found = search_concept(alloc, problem, 1000, &mut steps)?;
    is_certified(alloc, problem, &found, cost)
}

#[test]
fn the_tree_of_a_search_certifies_its_cost(rt: HostRuntime) -> Result<(), Fail> {
    let problem = two_edges(rt.alloc(), 1, 3)?;
    assert!(rt; search_certifies(rt.alloc(), &problem, 27_000_000)?);
    assert!(rt; !search_certifies(rt.alloc(), &problem, 27_000_001)?);
    Ok(())
}

// The second edge need not be driven: line 2 is driven twice, and a bound has a multiplier.
#[test]
fn multipliers_certify_24(rt: HostRuntime) -> Result<(), Fail> {
    let problem = two_edges(rt.alloc(), 0, 3)?;
    assert!(rt; search_certifies(rt.alloc(), &problem, 24_000_000)?);
    assert!(rt; !search_certifies(rt.alloc(), &problem, 24_000_001)?);
    Ok(())
}
