// Best decisions within budgets.
use crate::day::late_day;
use plan_num::{NoMemory, Steps, Tally};
use propagation::Propagation;
use std::alloc::Global;
use std::test::Fail;
use waiting_decisions::{Waits, cost_of, judge_nodes, search_waits};

// What a decision costs, whether it keeps each change, and how many nodes its tree has; 0 where it
// has none.
type Told = (i128, bool, bool, usize);

// A penalty, a budget, and what is found within it.
const ROWS: [(u32, u32, Option<Told>); 6] = [
    (0, 7, Some((3, false, true, 7))),
    (1, 7, Some((4, false, true, 7))),
    (2, 5, Some((5, true, true, 5))),
    (1, 6, Some((4, false, true, 0))),
    (1, 3, Some((5, true, true, 0))),
    (2, 2, None),
];

// What is found within a budget.
fn found(
    alloc: Global,
    problem: &Propagation,
    penalty: u32,
    budget: u32,
) -> Result<Option<Waits>, NoMemory> {
    if penalty > 1_000_000 {
        return Ok(None);
    }
    let mut steps = Steps::new(Tally::new());
    search_waits(alloc, problem, penalty, budget, &mut steps)
}

// What a decision on two changes says.
fn told(waits: &Waits) -> Option<Told> {
    if waits.kept.len() != 2 {
        return None;
    }
    let nodes = match &waits.tree {
        None => 0,
        Some(tree) => tree.len(),
    };
    Some((waits.cost, waits.kept.at(0), waits.kept.at(1), nodes))
}

#[test]
fn what_is_found_within_budgets(rt: HostRuntime) -> Result<(), Fail> {
    let problem = late_day(rt.alloc())?.expect(&rt, "a day");
    for (penalty, budget, wanted) in ROWS {
        let best = found(rt.alloc(), &problem, penalty, budget)?;
        let said = match &best {
            None => None,
            Some(waits) => told(waits),
        };
        assert_eq!(rt; said, wanted);
    }
    Ok(())
}

#[test]
fn the_tree_of_a_best_decision_passes(rt: HostRuntime) -> Result<(), Fail> {
    let problem = late_day(rt.alloc())?.expect(&rt, "a day");
    let best = found(rt.alloc(), &problem, 1, 7)?.expect(&rt, "a decision");
    assert_eq!(rt; best.cost, 4);
    let tree = best.tree.expect(&rt, "a tree");
    let fault = judge_nodes(rt.alloc(), &problem, 1, 4, tree.nodes())?;
    assert!(rt; fault.is_none());
    Ok(())
}

// Whether each change is kept, and what that costs at a penalty of 1.
const COSTS: [([bool; 2], i128); 4] = [
    ([true, true], 5),
    ([true, false], 6),
    ([false, true], 4),
    ([false, false], 5),
];

#[test]
fn what_each_set_costs(rt: HostRuntime) -> Result<(), Fail> {
    let problem = late_day(rt.alloc())?.expect(&rt, "a day");
    for (kept, cost) in COSTS {
        assert_eq!(rt; cost_of(rt.alloc(), &problem, 1, &kept)?, cost);
    }
    Ok(())
}
