// Lines that were there before.
ghost use Rattle.std.specs.Prelude.{ℤ, ◌≡◌, ◌||◌, not, IfOk, OnOk};
ghost use Rattle.std.specs.HashSet.{contains};
ghost use Rattle.std.specs.Ordering.{int_eq};

use plan_num::NoMemory;
use std::collections::HashSet;

/// Notes a line, and tells whether it was not there before.
pub(crate) fn note(seen: &mut HashSet<i64>, line: i64) -> Result<bool, NoMemory>
    ensures new { IfOk result (λ new. new ≡ not (contains int_eq seen.old line)) }
    ensures noted { OnOk result ((id : ℤ) → contains int_eq seen.new id
        ≡ (contains int_eq seen.old id || int_eq id line)) }
{
    let new = seen.insert(line)?;
    Ok(new)
}
