// The most that a timetable can cost.
ghost use Rattle.std.specs.Prelude.{◌≡◌, ◌<◌, ◌≤◌, ◌≤ℤ◌, ◌*ℤ◌, ◌*◌, ◌^◌, pos, ℕ, List};
ghost use Rattle.pesp.specs.Timetables.{IsTimetable};
ghost use Rattle.pesp_judge.specs.Weighted.{problem_of, span_of, weighted_slack};

use crate::weighted::{WeightedActivity, WeightedPesp, span};

/// What a timetable costs at most: the weight of each activity times the most minutes that it can
/// have above its lower bound. A lower bound above this says that there is no timetable.
pub fn greatest_slack(weighted: &WeightedPesp) -> u64
    ensures { (times : List ℕ) → IsTimetable (problem_of weighted.now) times →
        weighted_slack weighted.now times ≤ℤ pos result }
{
    let period = weighted.period();
    let mut sum: u64 = 0;
    for it in weighted.activities() {
        sum += most_of(it, period);
    }
    sum
}

// What the slack of an activity costs at most.
fn most_of(it: &WeightedActivity, period: u32) -> u64
    requires some { 1 ≤ period }
    requires few { period ≤ 720 }
    requires low { pos 0 ≤ℤ it.now.activity.lower }
    requires in_order { it.now.activity.lower ≤ℤ it.now.activity.upper }
    requires light { it.now.weight ≤ 10 ^ 9 }
    ensures value { pos result ≡ pos it.now.weight *ℤ span_of period it.now.activity }
    ensures small { result ≤ 720 * 10 ^ 9 }
{
    u64::from(it.weight) * span(&it.activity, period) as u64
}
