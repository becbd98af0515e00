// Small problems: the timetable that is found, that there is none, and a budget that is spent.
use pesp::{FoundTimes, Pesp, PespActivity, SearchEnd, search_times, tension};
use plan_num::{NoMemory, Steps, Tally};
use std::alloc::Global;
use std::test::Fail;

// An activity by its two events and its bounds.
type Bounds = (usize, usize, i64, i64);

// A drive, a wait and a way back to the first event.
const ROUND: [Bounds; 3] = [(0, 1, 3, 5), (1, 2, 2, 2), (2, 0, 4, 4)];

// The same with a drive that is a minute too short for the way round.
const SHORT: [Bounds; 3] = [(0, 1, 3, 3), (1, 2, 2, 2), (2, 0, 4, 4)];

// The problem of a period, so many events and activities; none where they are no such.
fn problem_of(
    alloc: Global,
    period: u32,
    events: usize,
    bounds: &[Bounds],
) -> Result<Option<Pesp>, NoMemory> {
    let mut activities = Vec::new(alloc);
    for (from, to, lower, upper) in bounds {
        activities.push(PespActivity {
            from: *from,
            to: *to,
            lower: *lower,
            upper: *upper,
        })?;
    }
    Ok(Pesp::checked(period, events, activities))
}

// How a search ends, and how many steps it took.
fn searched(alloc: Global, pesp: &Pesp, budget: u64) -> Result<(SearchEnd, u64), NoMemory> {
    let mut steps = Steps::new(Tally::new());
    let end = search_times(alloc, pesp, budget, &mut steps)?;
    Ok((end, steps.ledger().seen()))
}

// What was found, where a search ends so.
fn found_by(end: SearchEnd) -> Option<FoundTimes> {
    match end {
        SearchEnd::Found(found) => Some(found),
        SearchEnd::NoSolution => None,
        SearchEnd::Spent => None,
    }
}

#[test]
fn a_timetable_is_found(rt: HostRuntime) -> Result<(), Fail> {
    let round = problem_of(rt.alloc(), 10, 3, &ROUND)?.expect(&rt, "a problem");
    let (end, taken) = searched(rt.alloc(), &round, 1)?;
    let found = found_by(end).expect(&rt, "a timetable");
    assert_eq!(rt; found.times.as_slice(), [0, 4, 6].as_slice());
    assert_eq!(rt; found.entries, 1);
    assert_eq!(rt; taken, 1);
    Ok(())
}

#[test]
fn events_without_activities_are_at_0(rt: HostRuntime) -> Result<(), Fail> {
    let free = problem_of(rt.alloc(), 10, 2, &[])?.expect(&rt, "a problem");
    let (end, taken) = searched(rt.alloc(), &free, 2)?;
    let found = found_by(end).expect(&rt, "a timetable");
    assert_eq!(rt; found.times.as_slice(), [0, 0].as_slice());
    assert_eq!(rt; taken, 2);
    Ok(())
}

#[test]
fn a_budget_is_spent(rt: HostRuntime) -> Result<(), Fail> {
    let free = problem_of(rt.alloc(), 10, 2, &[])?.expect(&rt, "a problem");
    let (end, taken) = searched(rt.alloc(), &free, 1)?;
    assert!(rt; matches!(end, SearchEnd::Spent));
    assert_eq!(rt; taken, 1);
    Ok(())
}

#[test]
fn no_number_of_periods_closes_the_way_round(rt: HostRuntime) -> Result<(), Fail> {
    let short = problem_of(rt.alloc(), 10, 3, &SHORT)?.expect(&rt, "a problem");
    let (end, taken) = searched(rt.alloc(), &short, 1000)?;
    assert!(rt; matches!(end, SearchEnd::NoSolution));
    assert_eq!(rt; taken, 1);
    Ok(())
}

// The first activity that times break, where each of three events has one in a period of 10.
fn broken(round: &Pesp, times: &[u32]) -> Option<Option<usize>> {
    let fits = times.len() == round.event_count() && round.period() == 10;
    if fits && times.iter().all(|time| *time < 10) {
        Some(round.first_violated(times))
    } else {
        None
    }
}

#[test]
fn times_from_any_hand_are_judged(rt: HostRuntime) -> Result<(), Fail> {
    let round = problem_of(rt.alloc(), 10, 3, &ROUND)?.expect(&rt, "a problem");
    assert_eq!(rt; broken(&round, &[0, 4, 6]), Some(None));
    assert_eq!(rt; broken(&round, &[0, 3, 6]), Some(Some(1)));
    assert_eq!(rt; broken(&round, &[0, 5, 7]), Some(Some(2)));
    assert_eq!(rt; tension(2, 8, 1, 10), 3);
    Ok(())
}

// A period, and an activity between two events, that are no problem.
const REFUSED: [(u32, Bounds); 6] = [
    (0, (0, 1, 3, 5)),
    (721, (0, 1, 3, 5)),
    (10, (0, 2, 3, 5)),
    (10, (0, 1, 5, 3)),
    (10, (0, 1, -1, 3)),
    (10, (0, 1, 3, 100_001)),
];

#[test]
fn other_numbers_are_refused(rt: HostRuntime) -> Result<(), Fail> {
    for (period, bounds) in REFUSED {
        assert!(rt; problem_of(rt.alloc(), period, 2, &[bounds])?.is_none());
    }
    Ok(())
}
