// What a leaf shows.
ghost use Rattle.std.specs.Prelude.{◌≡◌, ◌<◌, ◌≤◌, ◌≤ℤ◌, ◌+ℤ◌, ◌-ℤ◌, ◌*ℤ◌, pos, ℤ, List, All, IfOk, IfSome};
ghost use Rattle.std.specs.Int.{int_min};
ghost use Rattle.std.specs.Prelude.{length, get_or, slice_set};
ghost use Rattle.pesp_judge.specs.declared.step.Step.{Step};
ghost use Rattle.pesp_judge.specs.Weighted.{IsWeighted, span_of};
ghost use Rattle.pesp_judge.specs.Cycles.{Holds, IsCycle, along, count_in};
ghost use Rattle.pesp_judge.specs.Leaves.{least_of, products, scaled};
ghost use Rattle.pesp_judge.specs.Regions.{LiesInPart, steps_at};
ghost use Rattle.pesp_judge.specs.Trees.{FallsIn, HoldsIn, IsRegion, ShowsIn};

use crate::certificate::{BoundRule, CertificateRow, RowWord, Stop};
use crate::cycle::{Cycle, place_of};
use crate::inequality::{Inequality, Weighing, cut_of, lower_sum};
use crate::region::Split;
use crate::weighted::{WeightedPesp, span};
use pesp::PespActivity;

/// A tree on the way: the problem, its cycles, and the splits from the root to a region.
#[derive(Clone, Copy)]
pub(crate) struct Region<'a> {
    pub(crate) weighted: &'a WeightedPesp,
    pub(crate) cycles: &'a [Cycle],
    pub(crate) path: &'a [Split],
}

/// What a leaf shows of each timetable in its region, by the multipliers in its rows: so many parts
/// of the weighted slack at least. Of what the weights are then, a part is left for each activity.
pub(crate) fn leaf_shows(
    region: Region<'_>,
    parts: u32,
    rows: &[CertificateRow],
    residual: &mut [i128],
) -> Result<i128, Stop>
    requires room { length residual.old ≡ length region.weighted.now.activities }
    requires region { IsRegion region }
    ensures { IfOk result (ShowsIn region.entry parts) }
{
    refill(region.weighted, parts, residual);
    let mut right: i128 = 0;
    for row in rows {
        match take_row(region, row, residual) {
            Ok(more) => match right.checked_add(more) {
                Some(sum) => right = sum,
                None => return Err(Stop::at(row, BoundRule::TooLarge)),
            },
            Err(rule) => return Err(Stop::at(row, rule)),
        }
    }
    let Some(least) = least_of(region.weighted, residual) else {
        return Err(Stop::after(rows, BoundRule::TooLarge));
    };
    match least.checked_add(right) {
        Some(shown) => Ok(shown),
        None => Err(Stop::after(rows, BoundRule::TooLarge)),
    }
}

// The weights of all activities in parts, in the place of what is there.
fn refill(weighted: &WeightedPesp, parts: u32, residual: &mut [i128])
    requires { length residual.old ≡ length weighted.now.activities }
    ensures { residual.new ≡ scaled (pos parts) weighted.now.activities }
{
    for (index, it) in weighted.activities().iter().enumerate() {
        residual[index] = i128::from(parts) * i128::from(it.weight);
    }
}

// Takes what a row names off the weights, as many times as it says, and gives what that counts
// together at least.
fn take_row(
    region: Region<'_>,
    row: &CertificateRow,
    residual: &mut [i128],
) -> Result<i128, BoundRule>
    requires room { length residual.old ≡ length region.weighted.now.activities }
    requires region { IsRegion region }
    ensures { IfOk result (FallsIn region.entry residual.old residual.new) }
{
    if row.second < 0 {
        return Err(BoundRule::Negative);
    }
    let amount = i128::from(row.second);
    let inequality = inequality_of(region, row)?;
    match take_times(inequality, amount, residual) {
        Some(more) => Ok(more),
        None => Err(BoundRule::TooLarge),
    }
}

// Takes an inequality, so many times, off the numbers of activities, and gives what that counts
// together at least.
fn take_times(inequality: Inequality<'_>, amount: i128, residual: &mut [i128]) -> Option<i128>
    requires places { All (λ step. step.place < length residual.old) inequality.steps.now }
    requires natural { pos 0 ≤ℤ amount }
    ensures { IfSome result (λ more. (slacks : List ℤ) → length slacks ≡ length residual.old →
        Holds inequality.entry slacks →
        (products residual.new slacks +ℤ more) ≤ℤ products residual.old slacks) }
{
    take_off(inequality, amount, residual)?;
    Some(amount.checked_mul(inequality.right)?)
}

// The inequality that a row names: the part of a split in which the region lies, or the cut of a
// cycle.
fn inequality_of<'a>(region: Region<'a>, row: &CertificateRow) -> Result<Inequality<'a>, BoundRule>
    requires region { IsRegion region }
    ensures cycle { IfOk result (λ inequality.
        IsCycle region.entry.weighted.now inequality.steps.now) }
    ensures holds { IfOk result (HoldsIn region.entry) }
{
    match row.word {
        RowWord::Bound => {
            let place = place_of(row.first, region.path.len()).ok_or(BoundRule::NoSplit)?;
            let split = region.path[place];
            let cycle = &region.cycles[split.cycle];
            part_of(region.weighted, cycle, split).ok_or(BoundRule::TooLarge)
        }
        RowWord::Cut => {
            let place = place_of(row.first, region.cycles.len()).ok_or(BoundRule::NoCycle)?;
            cut_of(region.weighted, &region.cycles[place]).ok_or(BoundRule::TooLarge)
        }
        _ => Err(BoundRule::NotHere),
    }
}

// What holds of the slacks of a cycle in the part of a split in which a region lies.
fn part_of<'a>(weighted: &WeightedPesp, cycle: &'a Cycle, split: Split) -> Option<Inequality<'a>>
    ensures cycle { IfSome result (λ inequality. inequality.steps.now ≡ cycle.now.steps.items) }
    ensures holds { IfSome result (λ inequality. (cycles : List (List Step)) (slacks : List ℤ) →
        steps_at cycles split.cycle ≡ cycle.now.steps.items →
        LiesInPart weighted.now.period cycles slacks split → Holds inequality slacks) }
{
    let steps = cycle.steps.as_slice();
    let taken = i128::from(weighted.period()).checked_mul(i128::from(split.periods))?;
    let lower = lower_sum(steps)?;
    if split.least {
        Some(Inequality {
            steps,
            weighing: Weighing::Least,
            right: taken.checked_sub(lower)?,
        })
    } else {
        Some(Inequality {
            steps,
            weighing: Weighing::Most,
            right: lower.checked_sub(taken)?,
        })
    }
}

// Takes an inequality, so many times, off the numbers of activities.
fn take_off(inequality: Inequality<'_>, amount: i128, residual: &mut [i128]) -> Option<()>
    requires { All (λ step. step.place < length residual.old) inequality.steps.now }
    ensures { IfSome result (λ _. (slacks : List ℤ) → length slacks ≡ length residual.old →
        products residual.new slacks ≡ products residual.old slacks
        -ℤ amount *ℤ along (count_in inequality.entry.weighing) slacks
        inequality.entry.steps.now) }
{
    for step in inequality.steps {
        let taken = inequality.weighing.count(step).checked_mul(amount)?;
        lower(residual, step.place, taken)?;
    }
    Some(())
}

// Takes so much off the number at a place.
fn lower(residual: &mut [i128], place: usize, by: i128) -> Option<()>
    requires { place < length residual.old }
    ensures { IfSome result (λ _. residual.new
        ≡ slice_set residual.old place (get_or residual.old place (pos 0) -ℤ by)) }
{
    residual[place] = residual[place].checked_sub(by)?;
    Some(())
}

// What numbers of activities times their slacks are together at least.
fn least_of(weighted: &WeightedPesp, residual: &[i128]) -> Option<i128>
    requires { length residual.now ≡ length weighted.now.activities }
    ensures sum { IfSome result (λ sum.
        sum ≡ least_of weighted.now.period residual.now weighted.now.activities) }
    ensures problem { IsWeighted weighted.now }
{
    let period = weighted.period();
    let mut sum: i128 = 0;
    for (index, it) in weighted.activities().iter().enumerate() {
        sum = sum.checked_add(least_part(residual[index], &it.activity, period)?)?;
    }
    Some(sum)
}

// What a number times the slack of an activity is at least.
fn least_part(number: i128, activity: &PespActivity, period: u32) -> Option<i128>
    requires some { 1 ≤ period }
    requires low { pos 0 ≤ℤ activity.now.lower }
    requires in_order { activity.now.lower ≤ℤ activity.now.upper }
    ensures { IfSome result (λ part.
        part ≡ int_min number (pos 0) *ℤ span_of period activity.now) }
{
    number
        .min(0)
        .checked_mul(i128::from(span(activity, period)))
}
