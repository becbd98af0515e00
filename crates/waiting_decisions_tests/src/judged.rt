// Trees from any hand.
use crate::day::late_day;
use std::process::Abort;
use std::test::Fail;
use waiting_decisions::TreeFault::{LowLeaf, NotWhole};
use waiting_decisions::WaitNode::{Leaf, Split};
use waiting_decisions::{TreeFault, WaitNode, judge_nodes};

// The split by the first change, by the second one, and by one that is not there.
const FIRST: WaitNode = Split { change: 0 };

const SECOND: WaitNode = Split { change: 1 };

const NONE: WaitNode = Split { change: 2 };

// A cost, the nodes that are to prove it at a penalty of 1, and their first fault.
type Case = (u64, &'static [WaitNode], Option<TreeFault>);

const LOW: [Case; 5] = [
    (3, &[Leaf], None),
    (4, &[Leaf], Some(LowLeaf)),
    (4, &[FIRST, Leaf, Leaf], None),
    (5, &[FIRST, Leaf, Leaf], Some(LowLeaf)),
    (5, &[FIRST, Leaf, SECOND, Leaf, Leaf], Some(LowLeaf)),
];

const BROKEN: [Case; 6] = [
    (3, &[], Some(NotWhole)),
    (3, &[Leaf, Leaf], Some(NotWhole)),
    (4, &[FIRST, Leaf], Some(NotWhole)),
    (9, &[FIRST, Leaf], Some(NotWhole)),
    (4, &[FIRST, FIRST, Leaf, Leaf, Leaf], Some(NotWhole)),
    (3, &[NONE, Leaf, Leaf], Some(NotWhole)),
];

#[test]
fn a_leaf_that_is_too_low_is_refused(rt: HostRuntime) -> Result<(), Fail> {
    let problem = late_day(rt.alloc())?.expect(&rt, "a day");
    for (cost, nodes, fault) in LOW {
        assert_eq!(rt; judge_nodes(rt.alloc(), &problem, 1, cost, nodes)?, fault);
    }
    Ok(())
}

#[test]
fn what_is_no_whole_tree_is_refused(rt: HostRuntime) -> Result<(), Fail> {
    let problem = late_day(rt.alloc())?.expect(&rt, "a day");
    for (cost, nodes, fault) in BROKEN {
        assert_eq!(rt; judge_nodes(rt.alloc(), &problem, 1, cost, nodes)?, fault);
    }
    Ok(())
}
