// Waiting decisions within budgets.
use crate::wait_days::{Day, HUB, ONE_CHANGE, bundle};
use giv_files::{Bundle, Refusal, Stage, StageFault};
use plan_num::{Steps, Tally, Text};
use std::alloc::Global;
use std::test::Fail;
use wait_choice::{choose_waits, print_waits};

// A day, a penalty, a budget, how many steps the choice takes, and its text behind the header.
type Row = (&'static Day, u32, u32, u64, &'static str);

const ROWS: [Row; 9] = [
    (
        &ONE_CHANGE,
        1,
        3,
        4,
        "cost; 0; 4\ndrop; 3; 0\nsplit; 3; 0\nleaf; 0; 0\nleaf; 0; 0\n",
    ),
    (
        &ONE_CHANGE,
        2,
        3,
        4,
        "cost; 0; 5\nkeep; 3; 0\nsplit; 3; 0\nleaf; 0; 0\nleaf; 0; 0\n",
    ),
    (&ONE_CHANGE, 1, 2, 3, "cost; 0; 5\nkeep; 3; 0\n"),
    (
        &ONE_CHANGE,
        0,
        20000,
        4,
        "cost; 0; 3\ndrop; 3; 0\nsplit; 3; 0\nleaf; 0; 0\nleaf; 0; 0\n",
    ),
    (
        &HUB,
        1,
        100,
        26,
        "cost; 0; 14\ndrop; 5; 0\nkeep; 6; 0\ndrop; 7; 0\ndrop; 8; 0\n\
         split; 5; 0\nsplit; 6; 0\nsplit; 7; 0\nsplit; 8; 0\nleaf; 0; 0\nleaf; 0; 0\n\
         split; 8; 0\nleaf; 0; 0\nleaf; 0; 0\nsplit; 7; 0\nleaf; 0; 0\nsplit; 8; 0\n\
         leaf; 0; 0\nleaf; 0; 0\nsplit; 6; 0\nsplit; 7; 0\nleaf; 0; 0\nsplit; 8; 0\n\
         leaf; 0; 0\nleaf; 0; 0\nsplit; 7; 0\nleaf; 0; 0\nsplit; 8; 0\nleaf; 0; 0\n\
         leaf; 0; 0\n",
    ),
    (
        &HUB,
        4,
        25,
        26,
        "cost; 0; 22\nkeep; 5; 0\nkeep; 6; 0\nkeep; 7; 0\ndrop; 8; 0\n\
         split; 5; 0\nsplit; 6; 0\nsplit; 7; 0\nsplit; 8; 0\nleaf; 0; 0\nleaf; 0; 0\n\
         split; 8; 0\nleaf; 0; 0\nleaf; 0; 0\nsplit; 7; 0\nsplit; 8; 0\nleaf; 0; 0\n\
         leaf; 0; 0\nsplit; 8; 0\nleaf; 0; 0\nleaf; 0; 0\nsplit; 6; 0\nsplit; 7; 0\n\
         leaf; 0; 0\nsplit; 8; 0\nleaf; 0; 0\nleaf; 0; 0\nsplit; 7; 0\nleaf; 0; 0\n\
         leaf; 0; 0\n",
    ),
    (
        &HUB,
        2,
        24,
        25,
        "cost; 0; 17\ndrop; 5; 0\nkeep; 6; 0\ndrop; 7; 0\ndrop; 8; 0\n",
    ),
    (
        &HUB,
        2,
        6,
        7,
        "cost; 0; 20\nkeep; 5; 0\nkeep; 6; 0\nkeep; 7; 0\ndrop; 8; 0\n",
    ),
    (&HUB, 2, 2, 3, "spent 2"),
];

// What a choice comes to: its text behind the header, or why there is none.
fn told(
    alloc: Global,
    bundle: &Bundle,
    penalty: u32,
    budget: u32,
    steps: &mut Steps<Tally>,
) -> Result<String, Fail> {
    if bundle.stage() != Stage::Disposition || !bundle.fits() {
        return Err(Fail::from("the bundle does not fit"));
    }
    if penalty > 1_000_000 || budget < 1 || budget > 20_000 {
        return Err(Fail::from("the numbers do not fit"));
    }
    match choose_waits(alloc, bundle, penalty, budget, steps) {
        Ok(waits) => printed(alloc, print_waits(alloc, bundle, &waits)),
        Err(StageFault::Refused(Refusal::Spent { entries })) => {
            Ok(format!(in alloc; "spent {entries}")?)
        }
        Err(_) => Err(Fail::from("refused")),
    }
}

// A text behind its header.
fn printed(alloc: Global, text: Result<Text, StageFault>) -> Result<String, Fail> {
    let Ok(text) = text else {
        return Err(Fail::from("refused"));
    };
    let Ok(text) = std::str::from_utf8(text.as_bytes()) else {
        return Err(Fail::from("no text"));
    };
    match text.split_once('\n') {
        Some(("# kind; id; value", rest)) => Ok(String::from_str(alloc, rest)?),
        _ => Err(Fail::from("no header")),
    }
}

#[test]
fn waits_within_budgets(rt: HostRuntime) -> Result<(), Fail> {
    for (day, penalty, budget, taken, text) in ROWS {
        let bundle = bundle(rt.alloc(), day)?;
        let mut steps = Steps::new(Tally::new());
        let found = told(rt.alloc(), &bundle, penalty, budget, &mut steps)?;
        assert_eq!(rt; found.as_str(), text);
        assert_eq!(rt; steps.ledger().seen(), taken);
    }
    Ok(())
}
