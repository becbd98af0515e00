// What a set of kept changes costs.
ghost use Rattle.std.specs.Prelude.{◌≡◌, length, IfOk};
ghost use Rattle.waiting_decisions.specs.Choices.{Costs, cost_of, dropped_count};

use crate::path::with_penalties;
use plan_num::{NUMBER_LIMIT, NoMemory};
use propagation::Propagation;
use std::alloc::Global;

/// The greatest cost that is written, in minutes. No day comes near it: its delay is at most
/// 6 * 10^16, and its penalties come to less than 10^12.
pub const MOST_COST: u64 = NUMBER_LIMIT;

/// What a set of kept changes costs, in minutes: how late all arrivals are together at its least
/// times, and a penalty in minutes for each change that is dropped.
pub fn cost_of(
    alloc: Global,
    problem: &Propagation,
    penalty: u32,
    kept: &[bool],
) -> Result<i128, NoMemory>
    ensures value { IfOk result (λ cost. cost ≡ cost_of problem.now penalty kept.now) }
    ensures costs { IfOk result (λ cost. length kept.now ≡ length problem.now.changes
        → Costs problem.now penalty kept.now cost) }
{
    let times = problem.least(alloc, kept)?;
    let dropped = dropped_count(kept);
    Ok(with_penalties(problem.delay(&times), penalty, dropped))
}

// How many changes are dropped.
fn dropped_count(kept: &[bool]) -> usize
    ensures { result ≡ dropped_count kept.now }
{
    let mut dropped = 0;
    for is_kept in kept {
        if !*is_kept {
            dropped += 1;
        }
    }
    dropped
}
