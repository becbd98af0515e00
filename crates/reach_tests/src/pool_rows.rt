// Pools of shortest lines: what is made of two texts and some terminals, and what is refused.
use giv_files::{Refusal, StageFault};
use plan_num::Text;
use pool_maker::{are_terminals, make_pool};
use std::alloc::{AllocError, Global};
use std::process::Abort;
use std::test::Fail;

// Texts of stops and of edges, terminals, and the pool, or why there is none.
struct Row {
    name: &'static str,
    stops: &'static str,
    edges: &'static str,
    terminals: &'static [i64],
    outcome: &'static str,
}

// Edges 1 and 2 lead from stop 1 over stop 2 to stop 4, and edges 3 and 4 over stop 3.
const SQUARE_STOPS: &str = "1; A; A; 0; 0\n2; B; B; 0; 0\n3; C; C; 0; 0\n4; D; D; 0; 0\n";

const SQUARE: &str = "1; 1; 2; 1; 1; 1\n2; 2; 4; 1; 1; 1\n3; 1; 3; 1; 1; 1\n4; 3; 4; 1; 1; 1\n";

// A triangle whose longest edge is longer than the other two, and stop 5 apart.
const TRIANGLE_STOPS: &str = "3; x; x; 0; 0\n1; x; x; 0; 0\n2; x; x; 0; 0\n5; x; x; 0; 0\n";

const TRIANGLE: &str = "7; 3; 1; 5; 1; 1\n2; 1; 2; 1; 1; 1\n4; 2; 3; 1.5; 1; 1\n";

const ROWS: [Row; 13] = [
    Row {
        name: "a line over two edges",
        stops: SQUARE_STOPS,
        edges: SQUARE,
        terminals: &[1, 4],
        outcome: "# line-id; order; edge-id\n1; 1; 1\n1; 2; 2\n# uncovered; 3\n# uncovered; 4\n",
    },
    Row {
        name: "two paths that lie in another",
        stops: SQUARE_STOPS,
        edges: SQUARE,
        terminals: &[4, 2, 1],
        outcome: "# line-id; order; edge-id\n1; 1; 1\n1; 2; 2\n# uncovered; 3\n# uncovered; 4\n",
    },
    Row {
        name: "a line over one edge",
        stops: SQUARE_STOPS,
        edges: SQUARE,
        terminals: &[4, 3],
        outcome: "# line-id; order; edge-id\n1; 1; 4\n\
            # uncovered; 1\n# uncovered; 2\n# uncovered; 3\n",
    },
    Row {
        name: "all stops are terminals",
        stops: SQUARE_STOPS,
        edges: SQUARE,
        terminals: &[3, 4, 2, 1],
        outcome: "# line-id; order; edge-id\n\
            1; 1; 1\n1; 2; 2\n2; 1; 1\n2; 2; 3\n3; 1; 4\n",
    },
    Row {
        name: "by length and not by the number of edges",
        stops: TRIANGLE_STOPS,
        edges: TRIANGLE,
        terminals: &[3, 1, 5],
        outcome: "# line-id; order; edge-id\n1; 1; 2\n1; 2; 4\n# uncovered; 7\n",
    },
    Row {
        name: "a path that two others cover together stays",
        stops: "1; ; ; 0; 0\n2; ; ; 0; 0\n3; ; ; 0; 0\n4; ; ; 0; 0\n5; ; ; 0; 0\n6; ; ; 0; 0\n",
        edges: "1; 1; 2; 1; 1; 1\n2; 2; 3; 1; 1; 1\n3; 3; 4; 1; 1; 1\n\
            4; 2; 5; 1; 1; 1\n5; 3; 6; 1; 1; 1\n",
        terminals: &[1, 4, 5, 6],
        outcome: "# line-id; order; edge-id\n\
            1; 1; 1\n1; 2; 2\n1; 3; 3\n2; 1; 1\n2; 2; 4\n3; 1; 1\n3; 2; 2\n3; 3; 5\n\
            4; 1; 3\n4; 2; 2\n4; 3; 4\n5; 1; 3\n5; 2; 5\n6; 1; 4\n6; 2; 2\n6; 3; 5\n",
    },
    Row {
        name: "no walk between the terminals",
        stops: "1; A; A; 0; 0\n2; B; B; 0; 0\n",
        edges: "",
        terminals: &[1, 2],
        outcome: "# line-id; order; edge-id\n",
    },
    Row {
        name: "a terminal that is no stop",
        stops: SQUARE_STOPS,
        edges: SQUARE,
        terminals: &[1, 9],
        outcome: "refused basis/Stop.giv row 0: unknown stop",
    },
    Row {
        name: "a terminal that is no id",
        stops: SQUARE_STOPS,
        edges: SQUARE,
        terminals: &[1, -9_223_372_036_854_775_808],
        outcome: "refused basis/Stop.giv row 0: unknown stop",
    },
    Row {
        name: "a fault of the texts before an unknown terminal",
        stops: SQUARE_STOPS,
        edges: "1; 1; 1; 1; 1; 1\n",
        terminals: &[1, 9],
        outcome: "refused basis/Edge.giv row 1: loop edge",
    },
    Row {
        name: "a fault of the stops before one of the edges",
        stops: "1; A; A; 0; 0\n1; B; B; 0; 0\n",
        edges: "1; 1; 1; 1; 1; 1\n",
        terminals: &[1, 2],
        outcome: "refused basis/Stop.giv row 2: repeated id",
    },
    Row {
        name: "a terminal twice",
        stops: SQUARE_STOPS,
        edges: SQUARE,
        terminals: &[1, 4, 1],
        outcome: "no terminals",
    },
    Row {
        name: "one terminal",
        stops: SQUARE_STOPS,
        edges: SQUARE,
        terminals: &[1],
        outcome: "no terminals",
    },
];

/// The pool of some terminals; nothing where they are none.
pub(crate) fn pool_between(
    alloc: Global,
    stops: &[u8],
    edges: &[u8],
    terminals: &[i64],
) -> Option<Result<Text, StageFault>> {
    if are_terminals(terminals) {
        Some(make_pool(alloc, stops, edges, terminals))
    } else {
        None
    }
}

// What comes of a row, as a text.
fn outcome_of(alloc: Global, row: &Row) -> Result<Text, Fail> {
    match pool_between(
        alloc,
        row.stops.as_bytes(),
        row.edges.as_bytes(),
        row.terminals,
    ) {
        None => Ok(Text::copy(alloc, b"no terminals")?),
        Some(Ok(text)) => Ok(text),
        Some(Err(fault)) => refused(alloc, fault),
    }
}

// A refusal, as a text.
fn refused(alloc: Global, fault: StageFault) -> Result<Text, Fail> {
    match fault {
        StageFault::Refused(Refusal::BadRow { file, row, why }) => {
            let name = file.name();
            let line = format!(in alloc; "refused {name} row {row}: {why}")?;
            Ok(Text::copy(alloc, line.as_bytes())?)
        }
        _ => Err(Fail::from("another refusal")),
    }
}

#[test]
fn rows_of_pools(rt: HostRuntime) -> Result<(), Fail> {
    for row in &ROWS {
        let outcome = outcome_of(rt.alloc(), row)?;
        let name = row.name;
        assert!(rt; outcome.as_bytes() == row.outcome.as_bytes(), "{name}");
    }
    Ok(())
}
