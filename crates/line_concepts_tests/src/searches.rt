// Searches of a concept of least cost: within an ample budget, within one that is spent, and where
// no concept is feasible.
use line_concepts::{BestConcept, Searched, search_concept};
use line_cost_model::LineProblem;
use plan_num::{NoMemory, Steps, Tally};
use sample_problems::{no_line, two_edges};
use std::alloc::Global;
use std::test::Fail;

// A budget, the frequencies that are found within it, how many nodes the tree has, and how many
// entries are listed.
type Budgeted = (u64, Option<[u32; 2]>, Option<usize>, u64);

// The edges are to be driven twice and once. The concept is found at the seventh of nine entries.
const BUDGETS: [Budgeted; 6] = [
    (0, None, None, 0),
    (6, None, None, 6),
    (7, Some([1, 1]), None, 7),
    (8, Some([1, 1]), None, 8),
    (9, Some([1, 1]), Some(9), 9),
    (1000, Some([1, 1]), Some(9), 9),
];

// What a search within a budget finds, and how many steps it took.
fn searched(
    alloc: Global,
    problem: &LineProblem,
    budget: u64,
) -> Result<(Searched, u64), NoMemory> {
    let mut steps = Steps::new(Tally::new());
    let found = search_concept(alloc, problem, budget, &mut steps)?;
    Ok((found, steps.ledger().seen()))
}

// The concept that was found has these frequencies; none is there where none is wanted.
fn has_frequencies(best: &Option<BestConcept>, want: &Option<[u32; 2]>) -> bool {
    match (best, want) {
        (Some(best), Some(want)) => best.frequencies.as_slice() == want.as_slice(),
        (None, None) => true,
        _ => false,
    }
}

// How many nodes the tree has, where there is one.
fn node_count(found: &Searched) -> Option<usize> {
    match &found.tree {
        Some(tree) => Some(tree.len()),
        None => None,
    }
}

#[test]
fn a_concept_is_found_within_a_budget(rt: HostRuntime) -> Result<(), Fail> {
    let problem = two_edges(rt.alloc(), 1, 3)?;
    for (budget, want, nodes, entries) in BUDGETS {
        let (found, taken) = searched(rt.alloc(), &problem, budget)?;
        assert!(rt; has_frequencies(&found.best, &want));
        assert_eq!(rt; node_count(&found), nodes);
        assert_eq!(rt; found.entries, entries);
        assert_eq!(rt; taken, entries);
    }
    Ok(())
}

#[test]
fn what_it_costs_is_told(rt: HostRuntime) -> Result<(), Fail> {
    let problem = two_edges(rt.alloc(), 1, 3)?;
    let (found, _) = searched(rt.alloc(), &problem, 9)?;
    let best = found.best.expect(&rt, "a concept");
    assert_eq!(rt; best.cost, 27_000_000);
    Ok(())
}

#[test]
fn no_concept_is_feasible_without_lines(rt: HostRuntime) -> Result<(), Fail> {
    let problem = no_line(rt.alloc())?;
    let (found, taken) = searched(rt.alloc(), &problem, 1)?;
    assert!(rt; found.best.is_none());
    assert_eq!(rt; node_count(&found), Some(1));
    assert_eq!(rt; taken, 1);
    Ok(())
}
