// The greatest texts that are read, and those that are longer by one.
use crate::pools::pool_of;
use crate::refusing::DAY;
use event_tables::{expanded_events, schedule_rows, trips};
use giv_files::{Counted, Refusal, StageFault};
use ptn_network::Network;
use std::alloc::{AllocError, Global};
use std::test::Fail;

// The refusal of a text with more of something than there may be.
fn too_many(what: Counted, count: u64) -> Option<StageFault> {
    Some(StageFault::Refused(Refusal::TooMany { what, count }))
}

// Some lines, so many times.
fn repeated(alloc: Global, lines: &[u8], count: usize) -> Result<Vec<u8>, AllocError> {
    let mut text = Vec::new(alloc);
    for _ in 0..count {
        text.extend_from_slice(lines)?;
    }
    Ok(text)
}

// Rows that begin with the ids from 1 to a number and go on alike.
fn numbered(alloc: Global, count: u32, rest: &str) -> Result<String, AllocError> {
    let mut rows = String::new(alloc);
    for id in 1..=count {
        let row = format!(in alloc; "{id}{rest}")?;
        rows.push_str(&row)?;
    }
    Ok(rows)
}

// A network of so many stops and so many edges between the first two of them.
fn large_network(alloc: Global, stops: u32, edges: u32) -> Result<Network, StageFault> {
    let stops = numbered(alloc, stops, "; ; ; ; 0\n")?;
    let edges = numbered(alloc, edges, "; 1; 2; 1; 1; 1\n")?;
    Network::from_texts(alloc, stops.as_bytes(), edges.as_bytes())
}

#[test]
fn networks_have_1000_stops_and_edges(rt: HostRuntime) -> Result<(), Fail> {
    let network = large_network(rt.alloc(), 1_000, 1_000)?;
    let told = (network.stop_count(), network.edge_index(1_000));
    assert_eq!(rt; told, (1_000, Some(999)));
    Ok(())
}

#[test]
fn networks_have_no_more(rt: HostRuntime) -> Result<(), Fail> {
    let stops = large_network(rt.alloc(), 1_001, 0).err();
    assert_eq!(rt; stops, too_many(Counted::Stops, 1_001));
    let edges = large_network(rt.alloc(), 1_000, 1_001).err();
    assert_eq!(rt; edges, too_many(Counted::Edges, 1_001));
    Ok(())
}

// The rows of so many lines over two edges each, with rows behind them.
fn line_rows(alloc: Global, lines: u32, behind: &str) -> Result<String, AllocError> {
    let mut text = String::new(alloc);
    for line in 1..=lines {
        let rows = format!(in alloc; "{line}; 1; 1\n{line}; 2; 2\n")?;
        text.push_str(&rows)?;
    }
    text.push_str(behind)?;
    Ok(text)
}

// How many lines a pool of them has.
fn large_pool(alloc: Global, lines: u32, behind: &str) -> Result<usize, StageFault> {
    let text = line_rows(alloc, lines, behind)?;
    let pool = pool_of(alloc, text.as_bytes())?;
    Ok(pool.line_count())
}

#[test]
fn lines_are_counted_before_rules(rt: HostRuntime) -> Result<(), Fail> {
    assert_eq!(rt; large_pool(rt.alloc(), 200, "")?, 200);
    let refused = large_pool(rt.alloc(), 200, "1; 2; 2\n201; 1; 1\n").err();
    assert_eq!(rt; refused, too_many(Counted::Lines, 201));
    Ok(())
}

const TRIP: &[u8] = b"1; 1; 1; TRIP; 1; 1; 1; 5; 2; 2; 2; 9; 8\n";

const RIDE: &[u8] = b"1; 1; 2; EMPTY; 2; 2; 2; 9; 3; 3; 2; 9; 0\n";

const BOTH: &[u8] =
    b"1; 1; 1; TRIP; 1; 1; 1; 5; 2; 2; 2; 9; 8\n1; 1; 2; EMPTY; 2; 2; 2; 9; 3; 3; 2; 9; 0\n";

// The ride starts at an event that is not there, which is a later fault.
const BOTH_UNKNOWN: &[u8] =
    b"1; 1; 1; TRIP; 1; 1; 1; 5; 2; 2; 2; 9; 8\n1; 1; 2; EMPTY; 9; 2; 2; 9; 3; 3; 2; 9; 0\n";

// How many rows a schedule has that repeats some rows so many times.
fn schedule_of(alloc: Global, rows: &[u8], count: usize) -> Result<usize, StageFault> {
    let events = expanded_events(alloc, DAY)?;
    let text = repeated(alloc, rows, count)?;
    Ok(schedule_rows(alloc, &events, &text)?.len())
}

#[test]
fn trips_and_empty_rides_are_counted_apart(rt: HostRuntime) -> Result<(), Fail> {
    for rows in [TRIP, RIDE, BOTH_UNKNOWN] {
        let refused = schedule_of(rt.alloc(), rows, 2_001).err();
        assert_eq!(rt; refused, too_many(Counted::Trips, 2_001));
    }
    assert_eq!(rt; schedule_of(rt.alloc(), BOTH, 2_000)?, 4_000);
    Ok(())
}

#[test]
fn there_are_2000_trips(rt: HostRuntime) -> Result<(), Fail> {
    let text = repeated(rt.alloc(), b"1; 1; 1; 5; 2; 2; 2; 9; 8\n", 2_001)?;
    let refused = trips(rt.alloc(), None, &text).err();
    assert_eq!(rt; refused, too_many(Counted::Trips, 2_001));
    Ok(())
}
