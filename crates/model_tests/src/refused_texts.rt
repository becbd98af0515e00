// Texts that are refused, file by file, each by its first fault.
use crate::refusing::{Refused, refuses};
use giv_files::{FileId, RowWhy};
use std::test::Fail;

const STOPS: [Refused; 4] = [
    (b"# stops\n1; A; A; 0\n", 2, RowWhy::FieldCount { found: 4 }),
    (
        b"1; A; A; 0; 0\n0; B; B; 0; 0\n",
        2,
        RowWhy::OutOfRange { column: 1 },
    ),
    // A repeated id, next to its first and later.
    (b"5; ; ; ; 0\n5; ; ; ; 0\n", 2, RowWhy::RepeatedId),
    (
        b"# stops\n5; ; ; ; 0\n6; ; ; ; 0\n5; ; ; ; 0\n",
        4,
        RowWhy::RepeatedId,
    ),
];

const EDGE_CELLS: [Refused; 3] = [
    (
        b"# edges\n1; 1; 2; 2; 4\n",
        2,
        RowWhy::FieldCount { found: 5 },
    ),
    (b"1; 1; x; 2; 4; 5\n", 1, RowWhy::NotNumber { column: 3 }),
    (b"\xEF\xBB\xBF1; 1; 2; 2; 4; 5\n", 1, RowWhy::ByteOrderMark),
];

// Each rule of an edge, and then rules in their order on one row, and rows before rules.
const EDGE_RULES: [Refused; 9] = [
    (
        b"# edges\n1; 1; 2; 2; 4; 5\n2; 2; 3; 3; 6; 6\n1; 2; 3; 3; 6; 6\n",
        4,
        RowWhy::RepeatedId,
    ),
    (b"1; 4; 2; 2; 4; 5\n", 1, RowWhy::UnknownStop),
    (
        b"# edges\n1; 1; 2; 2; 4; 5\n2; 2; 4; 3; 6; 6\n",
        3,
        RowWhy::UnknownStop,
    ),
    (b"1; 2; 2; 2; 4; 5\n", 1, RowWhy::LoopEdge),
    (b"1; 1; 2; 0; 4; 5\n", 1, RowWhy::ZeroBound),
    (b"1; 1; 2; 2; 0; 5\n", 1, RowWhy::ZeroBound),
    (b"1; 1; 2; 2; 6; 5\n", 1, RowWhy::BoundsCrossed),
    (
        b"1; 1; 2; 2; 4; 5\n1; 4; 4; 0; 0; 5\n",
        2,
        RowWhy::RepeatedId,
    ),
    (
        b"1; 1; 2; 2; 6; 5\n1; 4; 4; 0; 0; 5\n",
        1,
        RowWhy::BoundsCrossed,
    ),
];

const LOADS: [Refused; 5] = [
    (b"6; 1; 0; 0\n", 1, RowWhy::UnknownEdge),
    (b"1; 1; 0; 0\n1; 1; 0; 0\n", 2, RowWhy::RepeatedId),
    (b"1; 1; 2; 1\n", 1, RowWhy::BoundsCrossed),
    (
        b"1; 1; 0; 0\n2; 1; 0; 0\n3; 1; 0; 0\n5; 1; 0; 0\n",
        0,
        RowWhy::MissingEdge,
    ),
    (b"1; 1; 0\n", 1, RowWhy::FieldCount { found: 3 }),
];

const POOLS: [Refused; 9] = [
    (b"# pool\n1; 1; 8\n", 2, RowWhy::UnknownEdge),
    (b"# pool\n1; 1; 1\n1; 3; 2\n", 3, RowWhy::OrderGap),
    (b"1; 1; 1\n2; 2; 2\n", 2, RowWhy::OrderGap),
    (b"1; 1; 1\n1; 2; 1\n", 2, RowWhy::RepeatedEdge),
    (b"1; 1; 1\n1; 2; 3\n", 2, RowWhy::BrokenLine),
    (
        b"1; 1; 7\n1; 2; 2\n1; 3; 1\n1; 4; 3\n",
        4,
        RowWhy::BrokenLine,
    ),
    // Of the rules that a row breaks the first counts, and a cell before every rule.
    (b"1; 2; 8\n", 1, RowWhy::UnknownEdge),
    (b"1; 1; 1\n1; 1; 1\n", 2, RowWhy::OrderGap),
    (b"1; 1; 8\n1; 2; x\n", 2, RowWhy::NotNumber { column: 3 }),
];

const CONCEPTS: [Refused; 6] = [
    (
        b"1; 1; 1; 2\n# 3\n1; 2; 2; 3\n",
        3,
        RowWhy::FrequencyDiffers,
    ),
    // Two lines need not be driven equally often.
    (
        b"1; 1; 1; 2\n2; 1; 1; 3\n1; 2; 2; 0\n",
        3,
        RowWhy::FrequencyDiffers,
    ),
    (b"1; 1; 1; 2\n1; 2; 3; 3\n", 2, RowWhy::BrokenLine),
    (b"1; 1; 1; 1001\n", 1, RowWhy::OutOfRange { column: 4 }),
    (b"1; 1; 1; -1\n", 1, RowWhy::OutOfRange { column: 4 }),
    (b"1; 1; 1\n", 1, RowWhy::FieldCount { found: 3 }),
];

const COSTS: [Refused; 5] = [
    (b"3; 5; 15\n# 3\n4; 5; 15\n", 3, RowWhy::UnknownLine),
    (b"3; 5; 15\n3; 5; 15\n", 2, RowWhy::RepeatedId),
    (b"7; 5; 15\n", 0, RowWhy::MissingLine),
    (b"", 0, RowWhy::MissingLine),
    (b"4; 5; 15\n7; 5; -1\n", 2, RowWhy::OutOfRange { column: 3 }),
];

#[test]
fn stops(rt: HostRuntime) -> Result<(), Fail> {
    refuses(&rt, FileId::Stop, &STOPS)
}

#[test]
fn edges(rt: HostRuntime) -> Result<(), Fail> {
    refuses(&rt, FileId::Edge, &EDGE_CELLS)?;
    refuses(&rt, FileId::Edge, &EDGE_RULES)
}

#[test]
fn loads_of_either_file(rt: HostRuntime) -> Result<(), Fail> {
    refuses(&rt, FileId::LoadGiven, &LOADS)?;
    refuses(&rt, FileId::Load, &LOADS)
}

#[test]
fn pools(rt: HostRuntime) -> Result<(), Fail> {
    refuses(&rt, FileId::Pool, &POOLS)
}

#[test]
fn concepts(rt: HostRuntime) -> Result<(), Fail> {
    refuses(&rt, FileId::Concept, &CONCEPTS)
}

#[test]
fn given_costs(rt: HostRuntime) -> Result<(), Fail> {
    refuses(&rt, FileId::PoolCost, &COSTS)
}
