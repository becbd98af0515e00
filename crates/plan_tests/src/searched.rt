// The search of timetables on small problems, over the inputs of its stage.
use crate::tensions::{CHANGES, ROUND, THREE, TWELVE};
use giv_files::{Bundle, Key, Made, Refusal, Settings, Stage, StageFault};
use pesp_search::make_timetable;
use plan_num::{Steps, Tally};
use std::alloc::Global;
use std::process::Abort;
use std::test::Fail;

const TWO: &[u8] = b"1; departure; 1; 1; >; 1\n2; arrival; 2; 1; >; 1\n";

const FOUR: &[u8] = b"1; departure; 1; 1; >; 1\n2; arrival; 2; 1; >; 1\n\
    3; departure; 1; 2; >; 1\n4; arrival; 2; 2; >; 1\n";

// A period, the events and the activities of a problem, and a budget of entries.
type Problem = (i64, &'static [u8], &'static [u8], i64);

// The rows of times that are wanted, the report, and how many entries are listed.
type Found = (&'static [u8], &'static [u8], u64);

// The inputs of the stage.
fn bundle(alloc: Global, problem: &Problem) -> Result<Bundle, Fail> {
    let (period, events, activities, budget) = *problem;
    let mut settings = Settings::new(alloc);
    settings.push(Key::PeriodLength, period)?;
    settings.push(Key::TimetableBudget, budget)?;
    let mut bundle = Bundle::new(alloc, Stage::Timetable, settings);
    bundle.push_input(events)?;
    bundle.push_input(activities)?;
    Ok(bundle)
}

// What the search comes to, and how many entries it lists: the stage itself takes one step.
fn searched(
    alloc: Global,
    problem: &Problem,
) -> Result<(Result<Made, StageFault>, Option<u64>), Fail> {
    let bundle = bundle(alloc, problem)?;
    if bundle.stage() != Stage::Timetable || !bundle.fits() {
        return Err(Fail::from("the bundle does not fit"));
    }
    let mut steps = Steps::new(Tally::new());
    let made = make_timetable(alloc, &bundle, &mut steps);
    Ok((made, steps.ledger().seen().checked_sub(1)))
}

// The rows of times of what was made.
fn rows(made: &Made) -> Option<&[u8]> {
    if made.files.len() != 1 {
        return None;
    }
    made.files
        .get(0)
        .text
        .as_bytes()
        .strip_prefix(b"# event-id; time\n")
}

// The first timetable of each problem is found.
fn are_found(rt: &(impl AllocGlobal + Abort), cases: &[(Problem, Found)]) -> Result<(), Fail> {
    for (problem, (times, report, entries)) in cases {
        let (made, listed) = searched(rt.alloc(), problem)?;
        let made = made?;
        assert_eq!(rt; rows(&made), Some(*times));
        assert_eq!(rt; made.report.as_bytes(), *report);
        assert_eq!(rt; listed, Some(*entries));
    }
    Ok(())
}

// Each problem is refused behind so many entries.
fn are_refused(
    rt: &(impl AllocGlobal + Abort),
    cases: &[(Problem, Refusal, u64)],
) -> Result<(), Fail> {
    for (problem, refusal, entries) in cases {
        let (made, listed) = searched(rt.alloc(), problem)?;
        assert_eq!(rt; made.err(), Some(StageFault::Refused(*refusal)));
        assert_eq!(rt; listed, Some(*entries));
    }
    Ok(())
}

const WIDE: &[u8] = b"1; drive; 1; 2; 3; 12\n2; wait; 2; 3; 2; 2\n3; sync; 3; 1; 4; 4\n";

const ROUND_TIMES: &[u8] = b"1; 0\n2; 4\n3; 6\n";

const CHANGE_TIMES: &[u8] =
    b"1; 0\n2; 4\n3; 5\n4; 11\n5; 0\n6; 6\n7; 7\n8; 11\n9; 0\n10; 4\n11; 0\n12; 4\n";

const IN_TURN: [(Problem, Found); 4] = [
    (
        (10, THREE, ROUND, 100),
        (ROUND_TIMES, b"timetable: 3 events, 1 entries", 1),
    ),
    (
        (10, THREE, ROUND, 1111),
        (ROUND_TIMES, b"timetable: 3 events, 1 entries", 1),
    ),
    (
        (10, THREE, WIDE, 1),
        (ROUND_TIMES, b"timetable: 3 events, 1 entries", 1),
    ),
    (
        (20, TWELVE, CHANGES, 10),
        (CHANGE_TIMES, b"timetable: 12 events, 10 entries", 10),
    ),
];

const DRIVES: &[u8] = b"1; drive; 1; 2; 10; 10\n2; drive; 3; 4; 10; 10\n";

const PERIODS: [(Problem, Found); 5] = [
    (
        (720, FOUR, DRIVES, 2),
        (
            b"1; 0\n2; 10\n3; 0\n4; 10\n",
            b"timetable: 4 events, 2 entries",
            2,
        ),
    ),
    (
        (10, TWO, b"1; drive; 1; 2; 95; 97\n", 2),
        (b"1; 0\n2; 5\n", b"timetable: 2 events, 2 entries", 2),
    ),
    (
        (4, TWO, b"1; sync; 2; 2; 5; 8\n", 2),
        (b"1; 0\n2; 0\n", b"timetable: 2 events, 2 entries", 2),
    ),
    (
        (1, THREE, ROUND, 1),
        (b"1; 0\n2; 0\n3; 0\n", b"timetable: 3 events, 1 entries", 1),
    ),
    (
        (10, b"", b"", 1),
        (b"", b"timetable: 0 events, 1 entries", 1),
    ),
];

// Times are tried from the least one on, for the first event that has several.
#[test]
fn the_first_timetable_is_found(rt: HostRuntime) -> Result<(), Fail> {
    are_found(&rt, &IN_TURN)
}

#[test]
fn the_first_timetable_is_found_in_any_period(rt: HostRuntime) -> Result<(), Fail> {
    are_found(&rt, &PERIODS)
}

const ROUND_THE_WORDS: &[u8] = b"1; 0\n2; 0\n3; 0\n4; 10\n";

const THREE_ENTRIES: &[u8] = b"timetable: 4 events, 3 entries";

// Periods whose times fill their last word, or do not.
const FULL_WORDS: [(Problem, Found); 4] = [
    (
        (
            1,
            FOUR,
            b"1; drive; 1; 2; 0; 2\n2; drive; 3; 4; 10; 10\n",
            1,
        ),
        (
            b"1; 0\n2; 0\n3; 0\n4; 0\n",
            b"timetable: 4 events, 1 entries",
            1,
        ),
    ),
    (
        (
            63,
            FOUR,
            b"1; drive; 1; 2; 61; 64\n2; drive; 3; 4; 10; 10\n",
            3,
        ),
        (ROUND_THE_WORDS, THREE_ENTRIES, 3),
    ),
    (
        (
            64,
            FOUR,
            b"1; drive; 1; 2; 62; 65\n2; drive; 3; 4; 10; 10\n",
            3,
        ),
        (ROUND_THE_WORDS, THREE_ENTRIES, 3),
    ),
    (
        (
            65,
            FOUR,
            b"1; drive; 1; 2; 63; 66\n2; drive; 3; 4; 10; 10\n",
            3,
        ),
        (ROUND_THE_WORDS, THREE_ENTRIES, 3),
    ),
];

const ALONG_WORDS: &[u8] = b"1; 0\n2; 60\n3; 63\n4; 127\n";

// Periods of several words.
const SEVERAL_WORDS: [(Problem, Found); 3] = [
    (
        (
            128,
            FOUR,
            b"1; drive; 1; 2; 126; 129\n2; drive; 3; 4; 10; 10\n",
            3,
        ),
        (ROUND_THE_WORDS, THREE_ENTRIES, 3),
    ),
    (
        (
            128,
            FOUR,
            b"1; drive; 1; 2; 60; 62\n2; wait; 2; 3; 3; 5\n\
            3; drive; 3; 4; 64; 65\n4; sync; 4; 1; 1; 43\n",
            1,
        ),
        (ALONG_WORDS, b"timetable: 4 events, 1 entries", 1),
    ),
    (
        (
            129,
            FOUR,
            b"1; drive; 1; 2; 60; 62\n2; wait; 2; 3; 3; 5\n\
            3; drive; 3; 4; 64; 65\n4; sync; 4; 1; 1; 44\n",
            4,
        ),
        (ALONG_WORDS, b"timetable: 4 events, 4 entries", 4),
    ),
];

#[test]
fn the_first_timetable_is_found_in_full_words(rt: HostRuntime) -> Result<(), Fail> {
    are_found(&rt, &FULL_WORDS)
}

#[test]
fn the_first_timetable_is_found_in_several_words(rt: HostRuntime) -> Result<(), Fail> {
    are_found(&rt, &SEVERAL_WORDS)
}

const TIGHT: &[u8] = b"1; drive; 1; 2; 3; 3\n2; wait; 2; 3; 2; 2\n3; sync; 3; 1; 4; 4\n";

// No time stays to the second event alone: each has another one as its partner.
const LOOP: &[u8] = b"1; sync; 2; 2; 1; 1\n";

const APART: &[u8] = b"1; drive; 1; 2; 1; 1\n2; drive; 3; 4; 1; 1\n3; sync; 3; 4; 2; 2\n";

const NONE: [(Problem, Refusal, u64); 3] = [
    ((10, THREE, TIGHT, 1), Refusal::NoSolution, 1),
    ((4, TWO, LOOP, 5), Refusal::NoSolution, 5),
    ((10, FOUR, APART, 11), Refusal::NoSolution, 11),
];

#[test]
fn there_may_be_none(rt: HostRuntime) -> Result<(), Fail> {
    are_refused(&rt, &NONE)
}

// A budget that is one entry short is spent, whatever the last entry would come to.
const SPENT: [(Problem, Refusal, u64); 3] = [
    ((20, TWELVE, CHANGES, 9), Refusal::Spent { entries: 9 }, 9),
    ((20, TWELVE, CHANGES, 1), Refusal::Spent { entries: 1 }, 1),
    ((4, TWO, LOOP, 4), Refusal::Spent { entries: 4 }, 4),
];

#[test]
fn a_budget_may_be_spent(rt: HostRuntime) -> Result<(), Fail> {
    are_refused(&rt, &SPENT)
}
