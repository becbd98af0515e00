// Sets of times of events that cycles of exact activities bring back to themselves.
ghost use Rattle.std.specs.Prelude.{◌≡◌, ◌<◌, ◌==◌, ◌||◌, not, true, false, IfOk, OnOk};
ghost use Rattle.pesp.specs.Cycles.{Closes};
ghost use Rattle.pesp.specs.Marks.{Prunes, is_left};
ghost use Rattle.pesp.specs.Revising.{HasEmpty, StaysFull, reaches};

use crate::prune::prune;
use crate::revise::is_emptied;
use crate::time_sets::TimeSets;
use crate::windows::reached;
use plan_num::NoMemory;

/// Leaves to an event the times after which all those are left that come so many minutes later, and
/// as many later again, and so on: the greatest part of its set that goes over into itself. Tells
/// whether no time is left to it for that. Nothing is done where there are 0 minutes.
pub(crate) fn close(sets: &mut TimeSets, event: usize, minutes: usize) -> Result<bool, NoMemory>
    requires event { event < sets.old.sets.rows }
    requires minutes { minutes < sets.old.sets.columns }
    ensures closes { OnOk result (Closes sets.old sets.new event minutes) }
    ensures empty { IfOk result (λ is_empty. is_empty ≡ true → HasEmpty sets.new.sets) }
    ensures full { IfOk result (λ is_empty. is_empty ≡ false → StaysFull sets.old sets.new) }
{
    if minutes == 0 {
        return Ok(false);
    }
    let is_changed = keep_all_repeated(sets, event, minutes)?;
    Ok(is_emptied(sets.sets(), event, is_changed))
}

// Does so, and tells whether times were taken out. What is left after a turn has all times that
// come twice, four times, .. as many minutes later.
fn keep_all_repeated(sets: &mut TimeSets, event: usize, minutes: usize) -> Result<bool, NoMemory>
    requires event { event < sets.old.sets.rows }
    requires minutes { minutes < sets.old.sets.columns }
    ensures closes { OnOk result (Closes sets.old sets.new event minutes) }
    ensures same { IfOk result (λ changes. changes ≡ false → sets.new ≡ sets.old) }
{
    let period = sets.sets().period();
    let mut by = minutes;
    let mut changes = false;
    'turns: while keep_repeated(sets, event, by)? {
        changes = true;
        by = (by + by) % period;
    }
    Ok(changes)
}

// Leaves to an event the times after which one is left so many minutes later, and tells whether
// there were others.
fn keep_repeated(sets: &mut TimeSets, event: usize, by: usize) -> Result<bool, NoMemory>
    requires event { event < sets.old.sets.rows }
    requires by { by < sets.old.sets.columns }
    ensures { IfOk result (Prunes sets.old sets.new (λ other time. not (other == event)
        || reaches sets.old.sets.columns (is_left sets.old.sets event) by 0 time)) }
{
    let later = reached(sets.sets(), event, by, 0);
    prune(sets, event, &later)
}
