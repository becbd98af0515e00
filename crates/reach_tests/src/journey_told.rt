// Journeys that arrive first, and what can be reached before they arrive, as they are told.
use crate::journey_days::{Day, LATE, ON_TIME, TIES, TWO_LINES, net_of};
use journeys::{JourneyNet, print_journey};
use plan_num::{NoMemory, Text};
use std::alloc::Global;
use std::test::Fail;

// A day, the stops from which and to which, the least time of the start, and what is told.
const ROWS: [(Day, i64, i64, i64, &str); 9] = [
    (
        TWO_LINES,
        1,
        3,
        0,
        "ride; 1; 1; 0\nride; 2; 2; 4\nride; 3; 2; 5\nride; 4; 3; 11\n\
         reached; 1; 1; 0\nreached; 2; 2; 4\nreached; 3; 2; 5\nreached; 11; 2; 7\n\
         reached; 17; 1; 0\nreached; 18; 2; 4\n",
    ),
    (
        TWO_LINES,
        1,
        3,
        1,
        "ride; 5; 1; 20\nride; 6; 2; 24\nride; 7; 2; 25\nride; 8; 3; 31\n\
         reached; 5; 1; 20\nreached; 6; 2; 24\nreached; 7; 2; 25\nreached; 15; 2; 27\n\
         reached; 19; 1; 20\nreached; 20; 2; 24\n",
    ),
    (TWO_LINES, 3, 1, 21, "# no journey\n"),
    // A stop that is not there.
    (TWO_LINES, 9, 3, 0, "# no journey\n"),
    // None arrives, though much can be reached.
    (
        ON_TIME,
        1,
        9,
        0,
        "# no journey\nreached; 1; 1; 0\nreached; 2; 2; 10\nreached; 3; 2; 13\n\
         reached; 4; 3; 20\nreached; 5; 2; 30\nreached; 6; 3; 37\n",
    ),
    (
        ON_TIME,
        1,
        3,
        0,
        "ride; 1; 1; 0\nride; 2; 2; 10\nride; 3; 2; 13\nride; 4; 3; 20\n\
         reached; 1; 1; 0\nreached; 2; 2; 10\nreached; 3; 2; 13\n",
    ),
    (
        LATE,
        1,
        3,
        5,
        "ride; 1; 1; 5\nride; 2; 2; 13\nride; 5; 2; 30\nride; 6; 3; 37\n\
         reached; 1; 1; 5\nreached; 2; 2; 13\nreached; 5; 2; 30\n",
    ),
    // Of two arrivals at one time the one of lesser id; into event 5 by the change of lesser id.
    (
        TIES,
        1,
        3,
        0,
        "ride; 3; 1; 1\nride; 4; 2; 6\nride; 5; 2; 8\nride; 6; 3; 9\n\
         reached; 1; 1; 0\nreached; 2; 2; 5\nreached; 3; 1; 1\nreached; 4; 2; 6\n\
         reached; 5; 2; 8\nreached; 8; 1; 3\nreached; 9; 1; 3\n",
    ),
    // Event 8 is reached from event 1, and is a start all the same; event 2 is first by activity 2.
    (
        TIES,
        1,
        2,
        0,
        "ride; 1; 1; 0\nride; 2; 2; 5\nreached; 1; 1; 0\nreached; 3; 1; 1\n\
         reached; 8; 1; 3\nreached; 9; 1; 3\n",
    ),
];

// The text of the journey that arrives first.
fn told(alloc: Global, net: &JourneyNet, row: (i64, i64, i64)) -> Result<Text, NoMemory> {
    let (from, to, start) = row;
    let found = net.earliest(alloc, from, to, start)?;
    print_journey(alloc, net, &found)
}

// Whether it is a text behind the header.
fn is_told(text: &Text, rows: &str) -> bool {
    let header = b"# kind; event; stop; time\n";
    text.as_bytes()
        .strip_prefix(header.as_slice())
        .is_some_and(|told| told == rows.as_bytes())
}

#[test]
fn first_journeys(rt: HostRuntime) -> Result<(), Fail> {
    for (day, from, to, start, rows) in ROWS {
        let net = net_of(rt.alloc(), day)?;
        let text = told(rt.alloc(), &net, (from, to, start))?;
        assert!(rt; is_told(&text, rows), "{from} {to} {start}");
    }
    Ok(())
}
