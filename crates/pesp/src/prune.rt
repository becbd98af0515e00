// Times that are taken out of sets.
ghost use Rattle.std.specs.Prelude.{◌≡◌, ◌<◌, ◌||◌, length, IfOk};
ghost use Rattle.pesp.specs.Marks.{Prunes};
ghost use Rattle.pesp.specs.Revising.{stays};

use crate::time_sets::TimeSets;
use crate::words::WORDS;
use plan_num::NoMemory;

/// Takes the times that have no bit out of the set of an event, and tells whether there were any.
pub(crate) fn prune(
    sets: &mut TimeSets,
    event: usize,
    keep: &[u64; WORDS],
) -> Result<bool, NoMemory>
    requires event { event < sets.old.sets.rows }
    requires long { length keep.now ≡ 13 }
    ensures { IfOk result (Prunes sets.old sets.new (stays event keep.now)) }
{
    let mut changes = false;
    for index in 0..sets.sets().width() {
        changes = any_of(changes, sets.keep_bits(event, index, keep[index])?);
    }
    Ok(changes)
}

/// Whether one of two tests holds.
pub(crate) fn any_of(first: bool, second: bool) -> bool
    ensures { result ≡ (first || second) }
{
    first || second
}
