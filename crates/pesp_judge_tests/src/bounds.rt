// Certificates of a round in a period of 10 minutes: certified, or where they fail and why.
use pesp_judge::{BoundFault, BoundRule};
use pesp_texts::{AnswerStop, CheckedBound, check_texts};
use std::alloc::Global;
use std::test::Fail;

// A drive of 3 to 5 minutes, a wait of 2 and a way back of 4: the round takes 10 minutes.
const ROUND: &str = "1;7;-1;3;5;5\n2;-1;90;2;2;1\n3;90;7;4;4;1\n";

// The same with a drive that is a minute too short for the way round.
const SHORT: &str = "1;7;-1;3;3;5\n2;-1;90;2;2;1\n3;90;7;4;4;1\n";

// What is found of a certificate in a period of 10 minutes.
fn checked(alloc: Global, instance: &str, text: &str) -> Result<CheckedBound, AnswerStop> {
    check_texts(alloc, instance.as_bytes(), text.as_bytes(), 10)
}

#[test]
fn bounds_are_certified(rt: HostRuntime) -> Result<(), Fail> {
    let cases = [
        // The cut of the cycle: nine times the slacks are nine at least.
        "claim;5;9\ncycle;1;0\narc;1;1\narc;2;1\narc;3;1\nleaf;0;0\ncut;1;5\n",
        // Walked the other way round.
        "claim;5;9\ncycle;1;0\narc;3;-1\narc;2;-1\narc;1;-1\nleaf;0;0\ncut;1;5\n",
        // No cut: the round takes no period at most, which cannot be, or one at least.
        "claim;5;1\ncycle;1;0\narc;1;1\narc;2;1\narc;3;1\nsplit;1;0\nleaf;0;0\nbound;1;5\n\
         leaf;0;0\nbound;1;5\n",
        // The way back is flipped: its slack is counted from its span down, which is 0.
        "claim;5;9\ncycle;1;0\narc;1;1\narc;2;1\nflip;3;1\nleaf;0;0\ncut;1;5\n",
        // Nothing is shown, and nothing claimed.
        "claim;0;1\nleaf;0;0\n",
    ];
    for text in cases {
        match checked(rt.alloc(), ROUND, text) {
            Ok(it) => assert!(rt; it.fault == None && !it.above_all),
            Err(_) => assert!(rt; false),
        }
    }
    Ok(())
}

#[test]
fn there_is_no_timetable(rt: HostRuntime) -> Result<(), Fail> {
    let text = "claim;1;1\ncycle;1;0\narc;1;1\narc;2;1\narc;3;1\nleaf;0;0\ncut;1;1\n";
    match checked(rt.alloc(), SHORT, text) {
        Ok(it) => assert!(rt; it.fault == None && it.above_all),
        Err(_) => assert!(rt; false),
    }
    Ok(())
}

#[test]
fn certificates_fail(rt: HostRuntime) -> Result<(), Fail> {
    let cases = [
        (
            "claim;6;9\ncycle;1;0\narc;1;1\narc;2;1\narc;3;1\nleaf;0;0\ncut;1;5\n",
            6,
            BoundRule::ShowsLess,
        ),
        (
            "claim;5;9\ncycle;1;0\narc;1;1\narc;2;1\nleaf;0;0\ncut;1;5\n",
            4,
            BoundRule::NotClosed,
        ),
        ("claim;5;9\ncycle;2;0\narc;1;1\n", 2, BoundRule::CycleNumber),
        ("claim;5;9\ncycle;1;0\narc;4;1\n", 3, BoundRule::NoActivity),
        ("claim;5;9\ncycle;1;0\narc;1;2\n", 3, BoundRule::NoSign),
        ("claim;0;9\nleaf;0;0\ncut;1;5\n", 3, BoundRule::NoCycle),
        ("claim;0;9\nleaf;0;0\nbound;1;5\n", 3, BoundRule::NoSplit),
        ("claim;0;9\nsplit;1;0\n", 2, BoundRule::NoCycle),
        (
            "claim;0;1\ncycle;1;0\narc;1;1\narc;1;-1\nsplit;1;0\nleaf;0;0\nbound;1;-5\n",
            7,
            BoundRule::Negative,
        ),
        (
            "claim;0;1\ncycle;1;0\narc;1;1\narc;1;-1\nsplit;1;0\nleaf;0;0\n",
            6,
            BoundRule::NotWhole,
        ),
        ("claim;0;1\nleaf;0;0\nleaf;0;0\n", 3, BoundRule::NotHere),
    ];
    for (text, row, rule) in cases {
        let wanted = BoundFault {
            row: Some(row),
            rule,
        };
        match checked(rt.alloc(), ROUND, text) {
            Ok(it) => assert!(rt; it.fault == Some(wanted)),
            Err(_) => assert!(rt; false),
        }
    }
    Ok(())
}
