// Pools over as many stops, edges and terminals as there may be.
use crate::pool_rows::pool_between;
use std::alloc::{AllocError, Global};
use std::test::Fail;

// So many stops.
fn stops(alloc: Global, count: u32) -> Result<String, AllocError> {
    let mut rows = String::new(alloc);
    for id in 1..=count {
        let row = format!(in alloc; "{id}; ; ; ; 0\n")?;
        rows.push_str(&row)?;
    }
    Ok(rows)
}

// A star with 20 arms around stop 1: each further stop is joined to the one 20 before it.
fn arms(alloc: Global, count: u32) -> Result<String, AllocError> {
    let mut rows = String::new(alloc);
    for id in 2..=count {
        let before = id.saturating_sub(20).max(1);
        let row = format!(in alloc; "{id}; {before}; {id}; 1; 1; 1\n")?;
        rows.push_str(&row)?;
    }
    Ok(rows)
}

const ENDS: [i64; 20] = [
    981, 982, 983, 984, 985, 986, 987, 988, 989, 990, 991, 992, 993, 994, 995, 996, 997, 998, 999,
    1_000,
];

// How many lines a text has.
fn line_count(text: &[u8]) -> usize {
    text.iter().filter(|byte| **byte == b'\n').count()
}

#[test]
fn the_ends_of_20_arms_give_190_lines(rt: HostRuntime) -> Result<(), Fail> {
    let alloc = rt.alloc();
    let stops = stops(alloc, 1_000)?;
    let edges = arms(alloc, 1_000)?;
    let Some(pool) = pool_between(alloc, stops.as_bytes(), edges.as_bytes(), &ENDS) else {
        return Err(Fail::from("these are no terminals"));
    };
    let text = pool?;
    // A header, and each of the 999 edges in the 19 lines from the end of its arm.
    assert_eq!(rt; line_count(text.as_bytes()), 18_982);
    assert!(rt;
        text.as_bytes()
            .ends_with(b"\n190; 99; 980\n190; 100; 1000\n")
    );
    Ok(())
}
