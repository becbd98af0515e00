// Counts of faults.
ghost use Rattle.plan_files.specs.Counts.{Raised};

use plan_num::{Ledger, Tally};

// Counts one fault more, unless the counter stands at its last value.
pub(crate) fn count_fault(faults: &mut Tally)
    ensures { Raised faults.old faults.new }
{
    // What is read is known to be a number of 64 bits.
    let _seen = faults.seen();
    faults.note();
}
