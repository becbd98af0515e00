// The children of branches, one after the other.
ghost use Rattle.std.specs.Prelude.{◌≡◌, ℕ, ◌<◌, ◌==◌, length, true, IfOk, OnOk};
ghost use Rattle.bit_rows.specs.Bits.{marked};
ghost use Rattle.pesp.specs.Marks.{IsNextChild, KeepsTime, is_left};

use crate::prune::prune;
use crate::time_sets::{Branch, TimeSets};
use crate::words::WORDS;
use plan_num::NoMemory;

/// Goes to the sets of the next child that waits, and tells the event of its branch; none where no
/// child waits.
pub(crate) fn next_child(sets: &mut TimeSets) -> Result<Option<usize>, NoMemory>
    ensures { IfOk result (IsNextChild sets.old sets.new) }
{
    while let Some(branch) = sets.restore() {
        if let Some(time) = sets.sets().next_left(branch.event, branch.from) {
            sets.save(Branch {
                event: branch.event,
                from: time + 1,
            })?;
            keep_time(sets, branch.event, time)?;
            return Ok(Some(branch.event));
        }
    }
    Ok(None)
}

/// Leaves one of its times to an event.
pub(crate) fn keep_time(sets: &mut TimeSets, event: usize, time: usize) -> Result<(), NoMemory>
    requires event { event < sets.old.sets.rows }
    requires time { time < sets.old.sets.columns }
    requires left { is_left sets.old.sets event time ≡ true }
    ensures { OnOk result (KeepsTime sets.old sets.new event time) }
{
    let _ = sets.sets().period();
    prune(sets, event, &one_time(time))?;
    Ok(())
}

// The words in which one time has a bit.
fn one_time(time: usize) -> [u64; WORDS]
    requires { time < 720 }
    ensures long { length result ≡ 13 }
    ensures each { (other : ℕ) → marked result other ≡ (other == time) }
{
    let mut times = [0; WORDS];
    times[time / 64] = 1 << (time % 64);
    times
}
