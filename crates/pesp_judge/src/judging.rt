// The judge of times.
ghost use Rattle.std.specs.Prelude.{◌≡◌, ◌≤◌, ◌<◌, ◌≤ℤ◌, pos, length, All, IfSome, IfNone};
ghost use Rattle.pesp.specs.Timetables.{IsActivity, IsKept};
ghost use Rattle.pesp_judge.specs.Weighted.{Judges, slack_in, span_of};

use crate::weighted::WeightedPesp;
use pesp::{PespActivity, tension};

/// What is said of times: the index of the first activity that is not kept, or that they are a
/// timetable, with its weighted slack.
#[derive(Clone, Copy, Debug, PartialEq, Eq)]
pub enum Judged {
    Broken(usize),
    Kept(i128),
}

/// Judges a time for each event, whoever made them: the first activity that cannot take minutes
/// within its bounds is told, or else that all are kept and what that costs, which is the weight of
/// each activity times the minutes that it takes above its lower bound. No memory is taken.
pub fn judge(weighted: &WeightedPesp, times: &[u32]) -> Judged
    requires each { length times.now ≡ weighted.now.events }
    requires within { All (λ time. time < weighted.now.period) times.now }
    ensures { Judges weighted.now times.now result }
{
    let period = weighted.period();
    let mut cost: u64 = 0;
    for (index, it) in weighted.activities().iter().enumerate() {
        match kept_slack(&it.activity, period, times) {
            None => return Judged::Broken(index),
            Some(slack) => cost += u64::from(it.weight) * u64::from(slack),
        }
    }
    Judged::Kept(i128::from(cost))
}

// The minutes that an activity takes above its lower bound, where it keeps its bounds.
fn kept_slack(activity: &PespActivity, period: u32, times: &[u32]) -> Option<u32>
    requires activity { IsActivity (length times.now) activity.now }
    requires within { All (λ time. time < period) times.now }
    ensures kept { IfSome result (λ _. IsKept period times.now activity.now) }
    ensures slack { IfSome result (λ slack. pos slack ≡ slack_in period times.now activity.now) }
    ensures small { IfSome result (λ slack. slack < period) }
    ensures broken { IfNone result (¬ IsKept period times.now activity.now) }
{
    let from = times[activity.from];
    let to = times[activity.to];
    let minutes = tension(activity.lower, from, to, period);
    if minutes <= activity.upper {
        Some((minutes - activity.lower) as u32)
    } else {
        None
    }
}
