// Lines of pools and of concepts, and costs that are given them.
use crate::refusing::{POOL_EDGES, POOL_STOPS, costed_pool};
use giv_files::StageFault;
use line_pool::{LineCosts, Pool};
use ptn_network::Network;
use std::alloc::Global;
use std::process::Abort;
use std::test::Fail;

// The id of a line, the indexes of its edges and of its stops, and its frequency.
type Line = (i64, &'static [usize], &'static [usize], u32);

const POOL: &[u8] = b"# pool\n9; 1; 2\n3; 1; 1\n3; 2; 2\n9; 2; 7\n1; 1; 3\n4; 1; 2\n4; 2; 1\n";

const POOL_LINES: [Line; 4] = [
    (1, &[2], &[3, 4], 0),
    (3, &[0, 1], &[0, 1, 2], 0),
    (4, &[1, 0], &[2, 1, 0], 0),
    (9, &[1, 3], &[1, 2, 1], 0),
];

const CONCEPT: &[u8] = b"9; 1; 2; 0\n3; 1; 1; 1000\n3; 2; 2; 1000\n9; 2; 7; 0\n1; 1; 3; 7\n";

const CONCEPT_LINES: [Line; 3] = [
    (1, &[2], &[3, 4], 7),
    (3, &[0, 1], &[0, 1, 2], 1_000),
    (9, &[1, 3], &[1, 2, 1], 0),
];

// A line as it is told, where it is there.
fn line_at(pool: &Pool, place: usize) -> Option<(i64, &[usize], &[usize], u32)> {
    if place < pool.line_count() {
        Some((
            pool.line_id(place),
            pool.edges(place),
            pool.stops(place),
            pool.frequency(place),
        ))
    } else {
        None
    }
}

// Lines are these.
fn has_lines(rt: &impl Abort, pool: &Pool, lines: &[Line]) {
    assert_eq!(rt; pool.line_count(), lines.len());
    for (place, line) in lines.iter().enumerate() {
        assert_eq!(rt; line_at(pool, place), Some(*line));
    }
}

/// The lines of a text of a pool.
pub(crate) fn pool_of(alloc: Global, text: &[u8]) -> Result<Pool, StageFault> {
    let network = Network::from_texts(alloc, POOL_STOPS, POOL_EDGES)?;
    Pool::from_text(alloc, &network, text)
}

// Those of a text of a concept.
fn concept_of(alloc: Global, text: &[u8]) -> Result<Pool, StageFault> {
    let network = Network::from_texts(alloc, POOL_STOPS, POOL_EDGES)?;
    Pool::from_concept(alloc, &network, text)
}

#[test]
fn lines_are_walks_by_id(rt: HostRuntime) -> Result<(), Fail> {
    let pool = pool_of(rt.alloc(), POOL)?;
    has_lines(&rt, &pool, &POOL_LINES);
    Ok(())
}

#[test]
fn a_concept_has_the_frequency_of_each_line(rt: HostRuntime) -> Result<(), Fail> {
    let concept = concept_of(rt.alloc(), CONCEPT)?;
    has_lines(&rt, &concept, &CONCEPT_LINES);
    Ok(())
}

#[test]
fn a_pool_has_no_frequency(rt: HostRuntime) -> Result<(), Fail> {
    let pool = pool_of(rt.alloc(), b"5; 1; 1\n")?;
    has_lines(&rt, &pool, &[(5, &[0], &[0, 1], 0)]);
    Ok(())
}

// The costs that a text gives the lines 3 and 7.
fn costs_of(alloc: Global, text: &[u8]) -> Result<LineCosts, StageFault> {
    let pool = costed_pool(alloc)?;
    LineCosts::from_text(alloc, &pool, text)
}

// The costs as they are told.
fn told(costs: &LineCosts) -> Option<(i64, i64)> {
    if costs.len() == 2 {
        Some((costs.get(0), costs.get(1)))
    } else {
        None
    }
}

#[test]
fn costs_are_in_the_order_of_the_lines(rt: HostRuntime) -> Result<(), Fail> {
    let costs = costs_of(rt.alloc(), b"# costs\n7; 2; 12.5\n3; 5; 15\n")?;
    assert_eq!(rt; told(&costs), Some((15_000_000, 12_500_000)));
    Ok(())
}
