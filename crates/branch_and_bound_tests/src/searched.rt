// What a search finds of some numbers, within its budget and beyond it.
use crate::least::Numbers;
use branch_and_bound::{Found, find_best};
use plan_num::NoMemory;
use std::alloc::Global;
use std::test::Fail;

// A search of the least of some numbers.
fn least_of(
    alloc: Global,
    numbers: &[u32],
    budget: u64,
) -> Result<Found<Option<usize>, usize>, NoMemory> {
    let mut own = Vec::new(alloc);
    for number in numbers {
        own.push(*number)?;
    }
    find_best(alloc, &Numbers::of(own), budget)
}

#[test]
fn the_least_is_found_with_its_tree(rt: HostRuntime) -> Result<(), Fail> {
    let found = least_of(rt.alloc(), &[7, 3, 5], 10)?;
    assert_eq!(rt; found.best, Some(1));
    assert_eq!(rt; found.entries, 5);
    let tree = found.tree.expect(&rt, "a whole listing");
    assert_eq!(rt; tree.len(), 5);
    assert_eq!(rt; *tree.node(0), Some(1));
    assert_eq!(rt; *tree.at(1), None);
    assert_eq!(rt; *tree.node(2), Some(2));
    Ok(())
}

#[test]
fn of_several_the_first_is_kept(rt: HostRuntime) -> Result<(), Fail> {
    let found = least_of(rt.alloc(), &[4, 2, 2], 5)?;
    assert_eq!(rt; found.best, Some(1));
    assert!(rt; found.tree.is_some());
    Ok(())
}

#[test]
fn a_spent_budget_leaves_no_tree(rt: HostRuntime) -> Result<(), Fail> {
    let found = least_of(rt.alloc(), &[7, 3, 5], 3)?;
    assert_eq!(rt; found.best, Some(0));
    assert_eq!(rt; found.entries, 3);
    assert!(rt; found.tree.is_none());
    Ok(())
}

#[test]
fn no_numbers_have_no_least(rt: HostRuntime) -> Result<(), Fail> {
    let found = least_of(rt.alloc(), &[], 1)?;
    assert_eq!(rt; found.best, None);
    assert!(rt; found.tree.is_some());
    Ok(())
}
