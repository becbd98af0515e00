// How delays go on through a day, for a set of changes that are kept.
use delay_management::Propagation;
use giv_files::{Bundle, Key, Settings, Stage};
use plan_num::NoMemory;
use std::alloc::Global;
use std::test::Fail;

// Two trips of two vehicles, with a change from the first to the second; the first one starts late.
const INPUTS: [&[u8]; 5] = [
    b"1; 1; departure; 0; 1\n2; 2; arrival; 10; 2\n3; 3; departure; 13; 2\n4; 4; arrival; 20; 3\n",
    b"1; 1; drive; 1; 2; 8; 10\n2; 2; drive; 3; 4; 7; 9\n3; 3; change; 2; 3; 2; 62\n",
    b"1; 1; 1; TRIP; 1; 1; 1; 0; 2; 2; 2; 10; 1\n2; 2; 1; TRIP; 3; 3; 2; 13; 4; 4; 3; 20; 2\n",
    b"1; 5\n",
    b"",
];

// The inputs of the stage, with a turnover time of 5.
fn bundle(alloc: Global) -> Result<Bundle, Fail> {
    let mut settings = Settings::new(alloc);
    settings.push(Key::VsTurnOverTime, 5)?;
    settings.push(Key::DmWait, 0)?;
    let mut bundle = Bundle::new(alloc, Stage::Disposition, settings);
    for input in INPUTS {
        bundle.push_input(input)?;
    }
    Ok(bundle)
}

// The problem of these inputs.
fn problem(alloc: Global) -> Result<Propagation, Fail> {
    let bundle = bundle(alloc)?;
    if bundle.stage() != Stage::Disposition || !bundle.fits() {
        return Err(Fail::from("the bundle does not fit"));
    }
    Ok(Propagation::from_bundle(alloc, &bundle)?)
}

// The times of four events, whether they break the change, and how late all arrivals are.
type Told = ([i64; 4], bool, i128);

// These, where the change of the id 3 is kept or is not.
fn propagated(alloc: Global, problem: &Propagation, kept: bool) -> Result<Option<Told>, NoMemory> {
    if problem.change_count() != 1 || problem.event_count() != 4 || problem.change_id(0) != 3 {
        return Ok(None);
    }
    let times = problem.least(alloc, &[kept])?;
    let all = [times.at(0), times.at(1), times.at(2), times.at(3)];
    Ok(Some((all, problem.broken(&times, 0), problem.delay(&times))))
}

#[test]
fn least_times_for_kept_changes(rt: HostRuntime) -> Result<(), Fail> {
    let problem = problem(rt.alloc())?;
    let waited = propagated(rt.alloc(), &problem, true)?;
    assert_eq!(rt; waited, Some(([5, 13, 15, 22], false, 5)));
    let gone = propagated(rt.alloc(), &problem, false)?;
    assert_eq!(rt; gone, Some(([5, 13, 13, 20], true, 3)));
    Ok(())
}
