// A bound whose multipliers are being read.
ghost use Rattle.plan_num.specs.declared.number.TheConstants.{NUMBER_LIMIT};
ghost use Rattle.std.specs.Prelude.{◌≡◌, ◌<◌, ◌^◌, ◌≤ℤ◌, pos, [], true, if◌then◌else◌, IfOk, OnOk};
ghost use Rattle.line_cost_model.specs.Multipliers.{IsAfter};
ghost use Rattle.branch_certificate.specs.ReadRows.{takes, taken_by};

use line_cost_model::Multipliers;
use plan_num::NoMemory;
use std::alloc::Global;

/// A bound with the multipliers read so far: an edge below `next` does not rise over theirs, and so
/// many are due.
#[derive(Drop)]
pub(crate) struct OpenBound {
    pub(crate) multipliers: Multipliers,
    pub(crate) next: usize,
    pub(crate) due: u64,
}

impl OpenBound {
    /// A bound of so many multipliers, none of which is read.
    pub(crate) fn new(alloc: Global, count: u64) -> OpenBound
        ensures { result ≡ record { multipliers = []; next = 0; due = count } }
    {
        OpenBound {
            multipliers: Multipliers::new(alloc),
            next: 0,
            due: count,
        }
    }

    /// Takes a multiplier, where one is due and its edge rises; tells whether it did.
    pub(crate) fn take(&mut self, edge: usize, millionths: i64) -> Result<bool, NoMemory>
        requires after { IsAfter self.old.multipliers self.old.next }
        requires some { pos 1 ≤ℤ millionths }
        requires few { millionths ≤ℤ pos NUMBER_LIMIT }
        requires small { edge < 2 ^ 63 }
        ensures taken { IfOk result (λ taken. taken ≡ takes self.old edge) }
        ensures new { IfOk result (λ taken. self.new
            ≡ (if taken then taken_by self.old edge millionths else self.old)) }
    {
        if self.due == 0 || edge < self.next {
            return Ok(false);
        }
        self.multipliers.push(edge, millionths)?;
        self.next = edge + 1;
        self.due -= 1;
        Ok(true)
    }
}
