// A change that is decided on trial, and taken back again.
use crate::day::{CHANGES, day_of};
use delay_trials::{Decided, Trial};
use plan_num::NoMemory;
use std::process::Abort;
use std::test::Fail;

// How late all arrivals are before a change is kept, while it is, and after that is taken back.
fn delays(trial: &mut Trial) -> Result<Option<(i128, i128, i128)>, NoMemory> {
    if trial.change_count() != 1 || trial.is_decided(0) {
        return Ok(None);
    }
    let before = trial.delay();
    trial.keep(0)?;
    let while_kept = trial.delay();
    let last = trial.take_back();
    if last
        != Some(Decided {
            change: 0,
            kept: true,
        })
    {
        return Ok(None);
    }
    Ok(Some((before, while_kept, trial.delay())))
}

#[test]
fn a_change_is_kept_and_taken_back(rt: HostRuntime) -> Result<(), Fail> {
    let problem = day_of(rt.alloc(), 5, &CHANGES)?.expect(&rt, "a day");
    let mut trial = Trial::new(rt.alloc(), &problem)?;
    assert_eq!(rt; trial.first_broken(), Some(0));
    let told = delays(&mut trial)?;
    assert_eq!(rt; told, Some((3, 5, 3)));
    Ok(())
}
