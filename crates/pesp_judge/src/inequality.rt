// Inequalities between the slacks of a cycle.
ghost use Rattle.std.specs.Prelude.{◌≡◌, ◌≤◌, ◌+ℤ◌, ◌-ℤ◌, ◌*ℤ◌, pos, neg_ℤ, if◌then◌else◌};
ghost use Rattle.std.specs.Prelude.{IfSome};
ghost use Rattle.std.specs.Int.{int_rem_euclid};
ghost use Rattle.pesp_judge.specs.Cycles.{HoldsAlways, IsCycle, count_in, cut_count, sign};
ghost use Rattle.pesp_judge.specs.Cycles.{cut_weight, flipped_sum, lower_sum};

use crate::cycle::Cycle;
use crate::step::Step;
use crate::weighted::WeightedPesp;

/// What the slack of a step counts in an inequality: 1 along the cycle, -1 against it, or the other
/// way round, or what it counts in a cut.
#[derive(Clone, Copy, Debug)]
pub(crate) enum Weighing {
    Least,
    Most,
    Cut(u32, i64),
}

/// The slacks of steps, each times what it counts, are so much together at least.
#[derive(Clone, Copy, Debug)]
pub(crate) struct Inequality<'a> {
    pub(crate) steps: &'a [Step],
    pub(crate) weighing: Weighing,
    pub(crate) right: i128,
}

impl Weighing {
    /// What a step counts.
    pub(crate) fn count(self, step: &Step) -> i128
        ensures { result ≡ count_in self step.now }
    {
        match self {
            Weighing::Least => sign_of(step.forward),
            Weighing::Most => -sign_of(step.forward),
            Weighing::Cut(period, turned) => {
                let weight = cut_weight(period, turned, step);
                if step.flipped { -weight } else { weight }
            }
        }
    }
}

// What a step counts in a cut before it is flipped.
fn cut_weight(period: u32, turned: i64, step: &Step) -> i128
    ensures { result ≡ cut_weight (pos period) turned step.now }
{
    let missing = i128::from(period) - i128::from(turned);
    if step.forward {
        if step.flipped {
            i128::from(turned)
        } else {
            missing
        }
    } else {
        if step.flipped {
            missing
        } else {
            i128::from(turned)
        }
    }
}

// 1 for a step along its activity, and -1 for one against it.
fn sign_of(forward: bool) -> i128
    ensures { result ≡ (if forward then pos 1 else neg_ℤ (pos 1)) }
{
    if forward { 1 } else { -1 }
}

/// The lower bounds of steps, with their signs, added up.
pub(crate) fn lower_sum(steps: &[Step]) -> Option<i128>
    ensures { IfSome result (λ sum. sum ≡ lower_sum steps.now) }
{
    let mut sum: i128 = 0;
    for step in steps {
        sum = sum.checked_add(sign_of(step.forward) * i128::from(step.lower))?;
    }
    Some(sum)
}

// The spans of steps that are flipped, each times what it counts, added up.
fn flipped_sum(steps: &[Step], weighing: Weighing) -> Option<i128>
    ensures { IfSome result (λ sum. sum ≡ flipped_sum (count_in weighing) steps.now) }
{
    let mut sum: i128 = 0;
    for step in steps {
        sum = sum.checked_add(flipped_span(step, weighing)?)?;
    }
    Some(sum)
}

// The span of a step that is flipped, times what it counts, and 0 for another one.
fn flipped_span(step: &Step, weighing: Weighing) -> Option<i128>
    ensures { IfSome result (λ span. span ≡
        (if step.now.flipped then count_in weighing step.now *ℤ step.now.span else pos 0)) }
{
    if step.flipped {
        weighing.count(step).checked_mul(i128::from(step.span))
    } else {
        Some(0)
    }
}

/// The cut of a cycle, which each timetable keeps.
pub(crate) fn cut_of<'a>(weighted: &WeightedPesp, cycle: &'a Cycle) -> Option<Inequality<'a>>
    requires { IsCycle weighted.now cycle.now.steps.items }
    ensures cycle { IfSome result (λ inequality. inequality.steps.now ≡ cycle.now.steps.items) }
    ensures holds { IfSome result (HoldsAlways weighted.now) }
{
    let steps = cycle.steps.as_slice();
    let period = weighted.period();
    let turned = turned_of(steps, period)?;
    Some(Inequality {
        steps,
        weighing: Weighing::Cut(period, turned),
        right: cut_right(steps, period, turned)?,
    })
}

// The minutes that what adds in a cycle takes more than what takes away, but for whole periods,
// where flipped steps are counted from their spans down.
fn turned_of(steps: &[Step], period: u32) -> Option<i64>
    requires { 1 ≤ period }
    ensures { IfSome result (λ turned. turned ≡ int_rem_euclid
        (pos 0 -ℤ (lower_sum steps.now +ℤ flipped_sum sign steps.now)) (pos period)) }
{
    let whole = lower_sum(steps)?.checked_add(flipped_sum(steps, Weighing::Least)?)?;
    let turned = 0i128.checked_sub(whole)?.rem_euclid(i128::from(period));
    i64::try_from(turned).ok()
}

// What the slacks in a cut are together at least.
fn cut_right(steps: &[Step], period: u32, turned: i64) -> Option<i128>
    ensures { IfSome result (λ right. right ≡ turned *ℤ (pos period -ℤ turned)
        +ℤ flipped_sum (cut_count (pos period) turned) steps.now) }
{
    let own = spread(period, turned)?;
    let flipped = flipped_sum(steps, Weighing::Cut(period, turned))?;
    Some(own.checked_add(flipped)?)
}

// So many minutes times those that are missing to a period.
fn spread(period: u32, turned: i64) -> Option<i128>
    ensures { IfSome result (λ product. product ≡ turned *ℤ (pos period -ℤ turned)) }
{
    let missing = i128::from(period) - i128::from(turned);
    Some(i128::from(turned).checked_mul(missing)?)
}
